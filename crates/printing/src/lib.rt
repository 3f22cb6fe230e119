// The lines that the programs print, appended to an output of fixed size: paper 01, "The programs". What does not fit is cut off; a program writes its output out in time.
// The bytes are put by hand: a clause knows what `write!` writes only where it writes to a `String`, and there is no heap here.
#![tactic(auto)]

ghost use Rattle.std.specs.Prelude.{◌≡◌, [], ◌∷◌, ◌++◌, ◌<◌, min, take, replicate};
ghost use Rattle.io.specs.Digits.{hex_digit_ascii};
ghost use Rattle.printing.specs.Text.{Appended, Adds, Prints, option_of, room, hex, AlikeLine, UnlikeLine, RefusedLine, LimitText, LengthsText, AcceptedLine, Ahead, SpansLine, FieldsLine, pair_at, pairs_of, ExplainedLine, LookingText, GroupsLine, none_line};
ghost use Rattle.printing.specs.Puts.{PutField, PutFields, PutPair, PutPairs, PutLine, Unended};

// How many bytes an output has.
pub const SIZE: usize = 65536;

// The first `used` bytes wait to be written out: all of them, if `used` is above the size.
#[derive(Drop)]
pub struct Output {
    pub bytes: [u8; SIZE],
    pub used: usize,
}

// A digit in hex. A byte has two: `io::hex` writes a whole number to an array of 16.
fn glyph(d: u8) -> u8
    requires { d < 16 }
    ensures { result ≡ hex_digit_ascii d }
{
    if d < 10 { b'0' + d } else { b'a' + (d - 10) }
}

// What the bracket f + 1 takes, if both of its places are known.
fn taken(f: usize, known: u16, places: &[usize; 16]) -> Option<(usize, usize)>
    requires { f < 8 }
    ensures { option_of result ≡ pair_at known places.now f }
{
    if words::has(u64::from(known), f) && words::has(u64::from(known), 8 + f) {
        return Some((places[f], places[8 + f]));
    }
    None
}

// Answers come as single values: the types that hold them are of crates above this one.
impl Output {
    // Nothing waits.
    pub fn new() -> Output
        ensures empty { result ≡ record { bytes = replicate 65536 0; used = 0 } }
    {
        Output {
            bytes: [0; SIZE],
            used: 0,
        }
    }

    // Puts the bytes of a slice one by one, as far as they fit, and hands out how many are in use then. Most texts are a few bytes, for which a copy of a slice takes longer.
    #[inline(always)]
    fn fill(&mut self, s: &[u8]) -> usize
        ensures { Appended self.old.bytes self.old.used s.now self.new.bytes result }
    {
        let mut end = self.used.min(SIZE);
        for &b in s {
            if end < SIZE {
                self.bytes[end] = b;
                end += 1;
            }
        }
        end
    }

    // The same of a text that does not fit, which is seldom: it stands in no caller's way.
    #[inline(never)]
    fn fill_up(&mut self, s: &[u8]) -> usize
        ensures { Appended self.old.bytes self.old.used s.now self.new.bytes result }
    {
        self.fill(s)
    }

    // The bytes of a slice, as far as they fit. Where all do, that is known before the first, and a word of the program takes one test and a store or two.
    #[inline(always)]
    fn put(&mut self, s: &[u8])
        ensures { Adds self.old s.now self.new }
    {
        let fits = s.len() <= SIZE && self.used <= SIZE - s.len();
        self.used = if fits { self.fill(s) } else { self.fill_up(s) };
    }

    // What counts as in use is in the array, also where nothing is put.
    fn settle(&mut self)
        ensures { Adds self.old [] self.new }
    {
        self.used = self.used.min(SIZE);
    }

    // Puts a word, a space and digits, and hands out how many bytes are in use then.
    #[inline(always)]
    fn fill_field(&mut self, word: &[u8], digits: &[u8]) -> usize
        ensures { Appended self.old.bytes self.old.used (word.now ++ (32 ∷ digits.now)) self.new.bytes result }
    {
        self.used = self.fill(word);
        self.used = self.fill(b" ");
        self.fill(digits)
    }

    // The same where they do not fit.
    #[inline(never)]
    fn fill_up_field(&mut self, word: &[u8], digits: &[u8]) -> usize
        ensures { Appended self.old.bytes self.old.used (word.now ++ (32 ∷ digits.now)) self.new.bytes result }
    {
        self.fill_field(word, digits)
    }

    // A word, a space and a number in decimal. Whether there is room for all of it is asked once.
    #[inline(always)]
    fn put_field(&mut self, word: &[u8], x: usize)
        ensures { PutField word.now x self.old self.new }
    {
        let mut text = [0u8; 20];
        let k = io::decimal(x as u64, &mut text);
        let fits = word.len() <= SIZE - 21 && self.used <= SIZE - 21 - word.len();
        self.used = if fits {
            self.fill_field(word, &text[..k])
        } else {
            self.fill_up_field(word, &text[..k])
        };
    }

    // A slice in hex: two digits for each byte.
    fn put_hex(&mut self, s: &[u8])
        ensures { Adds self.old (hex s.now) self.new }
    {
        self.settle();
        for &b in s {
            self.put(&[glyph(b / 16), glyph(b % 16)]);
        }
    }

    // 'alike COUNT'
    pub fn alike(&mut self, count: usize)
        ensures printed { Prints 27 (AlikeLine count) self.old self.new }
    {
        self.put_field(b"alike", count);
        self.put(b"\n");
    }

    // 'unlike COUNT WITNESS' without its newline
    fn put_unlike(&mut self, count: usize, length: usize, witness: &[u8])
        ensures { PutLine (room 28 (take length witness.now)) (Unended (UnlikeLine count (take length witness.now))) self.old self.new }
    {
        self.put_field(b"unlike", count);
        self.put(b" ");
        self.put_hex(&witness[..length.min(witness.len())]);
    }

    // 'unlike COUNT WITNESS', the first `length` bytes of the buffer in hex. The buffer and the length come as the checker hands them over: that the line has no byte more is promised here.
    pub fn unlike(&mut self, count: usize, length: usize, witness: &[u8])
        ensures printed { Prints (room 29 (take length witness.now)) (UnlikeLine count (take length witness.now)) self.old self.new }
    {
        self.put_unlike(count, length, witness);
        self.put(b"\n");
    }

    // 'refused NUMBER PLACE'
    pub fn refused(&mut self, number: u8, place: usize)
        ensures printed { Prints 50 (RefusedLine number place) self.old self.new }
    {
        self.put_field(b"refused", usize::from(number));
        self.put_field(b"", place);
        self.put(b"\n");
    }

    // ' greatest GREATEST', or ' no limit'
    fn put_limit(&mut self, greatest: Option<usize>)
        ensures { PutLine 30 (LimitText (option_of greatest)) self.old self.new }
    {
        match greatest {
            Some(x) => self.put_field(b" greatest", x),
            None => self.put(b" no limit"),
        }
    }

    // 'least LEAST greatest GREATEST', or 'least LEAST no limit'
    fn put_lengths(&mut self, least: usize, greatest: Option<usize>)
        ensures { PutLine 56 (LengthsText least (option_of greatest)) self.old self.new }
    {
        self.put_field(b"least", least);
        self.put_limit(greatest);
    }

    // The same and a space, before another answer
    pub fn lengths(&mut self, least: usize, greatest: Option<usize>)
        ensures printed { Prints 57 (Ahead (LengthsText least (option_of greatest))) self.old self.new }
    {
        self.put_lengths(least, greatest);
        self.put(b" "); // the line goes on
    }

    // 'accepted PARTS LEAVES MEMBERS least LEAST greatest GREATEST', or 'no limit' at its end
    pub fn accepted(
        &mut self,
        parts: usize,
        leaves: usize,
        members: usize,
        least: usize,
        greatest: Option<usize>,
    )
        ensures printed { Prints 129 (AcceptedLine parts leaves members least (option_of greatest)) self.old self.new }
    {
        self.put_field(b"accepted", parts);
        self.put_field(b"", leaves);
        self.put_field(b"", members);
        self.put(b" ");
        self.put_lengths(least, greatest);
        self.put(b"\n");
    }

    // 'none'
    pub fn none(&mut self)
        ensures printed { Adds self.old none_line self.new }
    {
        self.put(b"none\n");
    }

    // 'greedy START END posix START END' without its newline
    fn put_spans(&mut self, start: usize, greedy: usize, posix: usize)
        ensures { PutLine 96 (Unended (SpansLine start greedy posix)) self.old self.new }
    {
        self.put_field(b"greedy", start);
        self.put_field(b"", greedy);
        self.put_field(b" posix", start);
        self.put_field(b"", posix);
    }

    // 'greedy START END posix START END'. By itself, so that the loop over lines, of which many have no match, has the registers.
    #[inline(never)]
    pub fn spans(&mut self, start: usize, greedy: usize, posix: usize)
        ensures printed { Prints 97 (SpansLine start greedy posix) self.old self.new }
    {
        self.put_spans(start, greedy, posix);
        self.put(b"\n");
    }

    // A space and '-', or the start and the end.
    fn put_bracket(&mut self, taken: Option<(usize, usize)>)
        ensures { PutPair (option_of taken) self.old self.new }
    {
        match taken {
            Some((start, end)) => {
                self.put_field(b"", start);
                self.put_field(b"", end);
            }
            None => self.put(b" -"),
        }
    }

    // What the first `count` brackets take; there are at most eight.
    fn put_brackets(&mut self, count: usize, known: u16, places: &[usize; 16])
        ensures { PutPairs (min count 8) known places.now self.old self.new }
    {
        self.settle();
        for f in 0..count.min(8) {
            self.put_bracket(taken(f, known, places));
        }
    }

    // 'greedy START END fields START END ..', where '-' stands for a bracket that takes nothing. A C caller keeps a line's fields as a mask and an array, and so they come here. By itself, as both spans.
    #[inline(never)]
    pub fn fields(
        &mut self,
        start: usize,
        end: usize,
        count: usize,
        known: u16,
        places: &[usize; 16],
    )
        ensures printed { Prints 392 (FieldsLine start end (pairs_of (min count 8) known places.now)) self.old self.new }
    {
        self.put_field(b"greedy", start);
        self.put_field(b"", end);
        self.put(b" fields");
        self.put_brackets(count, known, places);
        self.put(b"\n");
    }

    // 'unlike COUNT WITNESS greedy START END posix START END readable LINE': the verdict, how the witness is cut, and the first `length` bytes of its readable form in hex
    pub fn explained<'a>(
        &mut self,
        count: usize,
        length: usize,
        witness: &'a [u8],
        start: usize,
        greedy: usize,
        posix: usize,
        readable: &'a [u8],
    )
        ensures printed { Prints (room (room 136 (take length witness.now)) (take length readable.now)) (ExplainedLine count (take length witness.now) start greedy posix (take length readable.now)) self.old self.new }
    {
        self.put_unlike(count, length, witness);
        self.put(b" ");
        self.put_spans(start, greedy, posix); // of the witness
        self.put(b" readable ");
        self.put_hex(&readable[..length.min(readable.len())]);
        self.put(b"\n");
    }

    // 'looks LOOKS comparisons COMPARISONS ', before a verdict's line
    pub fn looking(&mut self, looks: usize, comparisons: usize)
        ensures printed { Prints 60 (LookingText looks comparisons) self.old self.new }
    {
        self.put_field(b"looks", looks);
        self.put_field(b" comparisons", comparisons);
        self.put(b" ");
    }

    // Numbers, each after a space.
    fn put_numbers(&mut self, numbers: &[u8])
        ensures { PutFields numbers.now self.old self.new }
    {
        self.settle();
        for &x in numbers {
            self.put_field(b"", usize::from(x));
        }
    }

    // 'groups NUMBER ..', the number of each byte's group
    pub fn groups(&mut self, numbers: &[u8; 256])
        ensures printed { Prints 5383 (GroupsLine numbers.now) self.old self.new }
    {
        self.put(b"groups");
        self.put_numbers(numbers);
        self.put(b"\n");
    }

    // The bytes of a slice in hex, on a line.
    pub fn bytes(&mut self, s: &[u8])
        ensures printed { Adds self.old (hex s.now ++ (10 ∷ [])) self.new }
    {
        self.put_hex(s);
        self.put(b"\n");
    }

    // The bytes of a slice as they are, on a line.
    pub fn text(&mut self, s: &[u8])
        ensures printed { Adds self.old (s.now ++ (10 ∷ [])) self.new }
    {
        self.put(s);
        self.put(b"\n");
    }
}
