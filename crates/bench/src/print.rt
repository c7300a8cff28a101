// What ringrun prints, into a lent buffer. How many numbers a line has stays a clause: a struct of the slice and that fact would be no shorter.
ghost use Rattle.std.specs.Prelude.{◌≡◌, ◌+◌, ◌*◌, ◌≤◌, [], ◌∷◌, ◌++◌, length, Some};
ghost use Rattle.bench.specs.Decimal.{decimal, spaced};
ghost use Rattle.bench.specs.Print.{Written, HasRoom, LineWritten, counted_text, said_of, said_text, end_text};

use itoa::Buffer;
use rules::{Answer, Found};

// What is printed of an answer: a refusal with its number, as `Answer` has it, or one of the four with its thread and item, or what a cut found.
#[derive(Clone, Copy)]
pub enum Said {
    Refused(u32),
    Ok(u32, u32),
    Closed(u32),
    Item(u32, u32),
    Empty(u32),
    Cut(Found),
}

// What is printed of an answer, if anything. A function and no TryFrom, which would need an error that says nothing.
pub fn said_of(a: Answer) -> Option<Said>
    ensures { result ≡ said_of a }
{
    match a {
        Answer::Refused(k) => Some(Said::Refused(k)),
        Answer::Ok(b, x) => Some(Said::Ok(b.thread, x)),
        Answer::Closed(b) => Some(Said::Closed(b.thread)),
        Answer::Item(b, x) => Some(Said::Item(b.thread, x)),
        Answer::Empty(b) => Some(Said::Empty(b.thread)),
        Answer::Cut(f) => Some(Said::Cut(f)),
        _ => None,
    }
}

// Text on its way into a lent buffer: the next byte goes to place `at`. `HasRoom`, which a line's function asks, is no invariant: it need not hold after the line.
// No `fmt::Write`: its contract says nothing of a write that fails, and `feed` promises by `outcome` that the text is there.
#[derive(Drop)]
pub struct Text<'a> {
    pub out: &'a mut [u8],
    pub at: usize,
}

impl Text<'_> {
    fn byte(&mut self, b: u8)
        requires { self.old.at + 1 ≤ length self.old.out.now }
        ensures { Written self.old (b ∷ []) self.new }
    {
        self.out[self.at] = b;
        self.at += 1;
    }

    #[tactic(auto, using(crate::proofs::Stored::copied))]
    fn word(&mut self, word: &[u8])
        requires { self.old.at + length word.now ≤ length self.old.out.now }
        ensures { Written self.old word.now self.new }
    {
        let end = self.at + word.len();
        let out = &mut *self.out;
        out[self.at..end].copy_from_slice(word);
        self.at = end;
    }

    // A number in decimal.
    #[tactic(auto, using(crate::proofs::Decimal::as_std))]
    fn decimal(&mut self, n: u64)
        requires { self.old.at + 20 ≤ length self.old.out.now }
        ensures wrote { Written self.old (decimal n) self.new }
        ensures room { self.new.at ≤ self.old.at + 20 }
    {
        self.word(Buffer::new().format(n).as_bytes());
    }

    // A number after a space.
    fn number(&mut self, n: u64)
        requires { self.old.at + 21 ≤ length self.old.out.now }
        ensures wrote { Written self.old (spaced (n ∷ [])) self.new }
        ensures room { self.new.at ≤ self.old.at + 21 }
    {
        self.byte(b' ');
        self.decimal(n);
    }

    // Numbers, each after a space.
    fn numbers(&mut self, ns: &[u32])
        requires { (length ns.now ≤ 64) × (self.old.at + 21 * length ns.now ≤ length self.old.out.now) }
        ensures wrote { Written self.old (spaced ns.now) self.new }
        ensures room { self.new.at ≤ self.old.at + 21 * length ns.now }
    {
        for n in ns {
            self.number(u64::from(*n));
        }
    }

    // The event count, a word, its numbers and items, a newline.
    fn counted(&mut self, e: u32, word: &[u8], ns: &[u32], items: &[u32])
        requires { (length word.now ≤ 8) × (length ns.now ≤ 8) × (length items.now ≤ 64) × HasRoom self.old }
        ensures { LineWritten self.old (counted_text e word.now (ns.now ++ items.now)) self.new }
    {
        self.decimal(u64::from(e));
        self.byte(b' ');
        self.word(word);
        self.numbers(ns);
        self.numbers(items);
        self.byte(b'\n');
    }

    // A refused line's number and the refusal's.
    pub fn refused(&mut self, l: u64, k: u32)
        requires { HasRoom self.old }
        ensures { LineWritten self.old (said_text 0 l [] (Some (Said.Refused k))) self.new }
    {
        self.word(b"refused");
        self.number(l);
        self.number(u64::from(k));
        self.byte(b'\n');
    }

    // The last line.
    pub fn end(&mut self, e: u32)
        requires { HasRoom self.old }
        ensures { LineWritten self.old (end_text e) self.new }
    {
        self.word(b"end");
        self.number(u64::from(e));
        self.byte(b'\n');
    }

    // The line of what is said.
    #[inline(never)]
    #[tactic(auto, unfolding(crate::specs::Print::said_text))]
    fn line(&mut self, e: u32, l: u64, s: Said, items: &[u32])
        requires { (length items.now ≤ 64) × HasRoom self.old }
        ensures { LineWritten self.old (said_text e l items.now (Some s)) self.new }
    {
        match s {
            Said::Refused(k) => self.refused(l, k),
            Said::Ok(t, x) => self.counted(e, b"ok", &[t, x], &[]),
            Said::Closed(t) => self.counted(e, b"closed", &[t], &[]),
            Said::Item(t, x) => self.counted(e, b"item", &[t, x], &[]),
            Said::Empty(t) => self.counted(e, b"empty", &[t], &[]),
            Said::Cut(f) => {
                let found = [f.mark, f.head, f.tail, f.closed, f.count];
                self.counted(e, b"cut", &found, items);
            }
        }
    }

    // What is said of an answer, if anything. Its line is a function of its own, so that no call is made where nothing is said.
    #[inline(always)]
    #[tactic(auto, unfolding(crate::specs::Print::said_text))]
    pub fn said(&mut self, e: u32, l: u64, s: Option<Said>, items: &[u32])
        requires { (length items.now ≤ 64) × HasRoom self.old }
        ensures { LineWritten self.old (said_text e l items.now s) self.new }
    {
        if let Some(s) = s {
            self.line(e, l, s, items);
        }
    }
}
