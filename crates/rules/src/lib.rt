// The types of document 01, and the control record's own methods.
#![tactic(auto)]

pub mod places;

ghost use Rattle.std.specs.Prelude.{◌≡◌};
ghost use Rattle.rules.specs.Record.{idle, fresh_control, with_thread, thread_at, counted_at, drawn_at};
ghost use Rattle.rules.specs.Line.{line_kind, line_place};

// A line of memory, as a thread awaits it and as a write-back carries it. None is a case and no Option: the page has one of none, a cell, a copy, Tail, and `line_kind` numbers all four.
#[derive(Clone, Copy, Default, PartialEq, Eq)]
pub enum Line {
    #[default]
    None,
    Cell(u32),
    Copy(u32),
    Tail,
}

// A cell's four numbers as they stand in an image, of which safe is no bool: an image that isn't sound has any number there. Item 0 is blank and no None: so the page has it.
#[derive(Clone, Copy, Default, PartialEq, Eq)]
pub struct Cell {
    pub safe: u32,
    pub index: u32,
    pub item: u32,
    pub mark: u32,
}

// One thread's record. Its place is a number and no enum: document 01 asks for one match on it, with ranges (`places`). An idle one is all zeros, place and item too: so the page has it.
#[derive(Clone, Copy, Default, PartialEq, Eq)]
pub struct Thread {
    pub place: u32,
    pub item: u32,
    pub number: u32,
    pub looked: Cell,
    pub tries: u32,
    pub awaited: Line,
}

// The numbers of a ring: R, n, S, the event count and Head.
#[derive(Clone, Copy)]
pub struct Ring {
    pub cells: u32,
    pub threads: u32,
    pub tries: u32,
    pub events: u32,
    pub head: u32,
}

// The control record.
#[derive(Clone, Copy)]
pub struct Control {
    pub ring: Ring,
    pub thread: [Thread; 8],
}

#[derive(Clone, Copy)]
pub enum Event {
    Put(u32, u32),
    Take(u32),
    Go(u32),
    Back(Line),
    Cut,
}

// Why a call is refused: document 01's refusals, in the order of their numbers.
#[derive(Clone, Copy, PartialEq, Eq)]
pub enum Refusal {
    // setup has R, n or S out of range
    Range = 1,
    // thread ≥ n
    Thread,
    // cell ≥ R, or copy ≥ n
    Line,
    // begin on a busy thread
    Busy,
    // step of an idle thread
    Idle,
    // put of item 0
    Blank,
    // event count already 1,000,000
    Full,
    // control record not sound
    Record,
    // text line not understood
    Text,
    // an image shorter than 4R + n + 2
    Short,
    // listing room under R numbers
    Room,
    // an image not sound
    Image,
}

// Whose answer it is: the thread, and its number.
#[derive(Clone, Copy)]
pub struct By {
    pub thread: u32,
    pub number: u32,
}

// What a cut found and left. closed is no bool: it is a word of an image, as the definitions `finds` and `numbers` have it.
#[derive(Clone, Copy)]
pub struct Found {
    pub mark: u32,
    pub head: u32,
    pub tail: u32,
    pub closed: u32,
    pub count: u32,
}

// A refusal is its number here: the definitions `refused` and `numbers` give it one.
#[derive(Clone, Copy)]
pub enum Answer {
    Refused(u32),
    Begun(u32),
    Drew(By),
    Looked(By, u32),
    SawHead(By, u32),
    Landed(By, u32, u32),
    Missed(By, u32),
    Asked(By),
    Waiting(By),
    Ok(By, u32),
    Closed(By),
    SetClosed(By),
    Took(By, u32, u32),
    Flagged(By, u32),
    Passed(By, u32),
    SawTail(By, u32),
    Lifted(By, u32),
    Copied(By, u32),
    Item(By, u32),
    Empty(By),
    Written(Line),
    Cut(Found),
}

// What an event leaves beside the images.
#[derive(Clone, Copy)]
pub struct Outcome {
    pub control: Control,
    pub answer: Answer,
}

// What a row of the step table leaves beside the running image.
#[derive(Clone, Copy)]
pub struct Moved {
    pub ring: Ring,
    pub thread: Thread,
    pub answer: Answer,
}

impl From<Refusal> for u32 {
    ghost use Rattle.rules.specs.Refusal.{number_of};

    ghost from_gives = { λ r k. k ≡ number_of r };

    fn from(r: Refusal) -> u32 {
        r as u32
    }
}

impl From<Refusal> for Answer {
    ghost use Rattle.rules.specs.Refusal.{answer_of};

    ghost from_gives = { λ r a. a ≡ answer_of r };

    fn from(r: Refusal) -> Answer {
        Answer::Refused(r.into())
    }
}

impl Line {
    // What the line is, as a number: none 0, a cell 1, a copy 2, Tail 3. Public, and `kind_only` speaks of it; no `as u32`: two cases hold a number.
    pub fn kind(self) -> u32
        ensures { result ≡ line_kind self }
    {
        match self {
            Line::None => 0,
            Line::Cell(_) => 1,
            Line::Copy(_) => 2,
            Line::Tail => 3,
        }
    }

    // Which cell or which copy, 0 for the other two. Public, and `place_only` speaks of it.
    pub fn place(self) -> u32
        ensures { result ≡ line_place self }
    {
        match self {
            Line::None => 0,
            Line::Cell(j) => j,
            Line::Copy(t) => t,
            Line::Tail => 0,
        }
    }
}

impl Thread {
    // The thread that does nothing: all its fields are zero or none.
    pub fn idle() -> Thread
        ensures { result ≡ idle }
    {
        Thread::default()
    }
}

impl Ring {
    // One event more. At the run limit the numbers stay as they are. It and `draw` stay two: document 01 names both, and one method that is given the field would be no shorter.
    #[tactic(auto, unfolding(crate::specs::Record::counted_at))]
    pub fn count(mut self) -> Ring
        ensures { result ≡ counted_at self }
    {
        if self.events < Control::RUN_LIMIT {
            self.events += 1;
        }
        self
    }

    // Head drawn: it is one more. At the run limit the numbers stay as they are.
    #[tactic(auto, unfolding(crate::specs::Record::drawn_at))]
    pub fn draw(mut self) -> Ring
        ensures { result ≡ drawn_at self }
    {
        if self.head < Control::RUN_LIMIT {
            self.head += 1;
        }
        self
    }
}

impl Control {
    pub const MAX_CELLS: u32 = 64;

    pub const MAX_THREADS: u32 = 8;

    pub const MAX_TRIES: u32 = 255;

    pub const RUN_LIMIT: u32 = 1000000;

    // The control record of a fresh ring.
    pub fn fresh(cells: u32, threads: u32, tries: u32) -> Control
        ensures { result ≡ fresh_control cells threads tries }
    {
        Control {
            ring: Ring {
                cells,
                threads,
                tries,
                events: 0,
                head: 0,
            },
            thread: [Thread::idle(); 8],
        }
    }

    // Thread i's record, an idle one where there is none.
    #[tactic(auto, unfolding(crate::specs::Record::thread_at))]
    pub fn thread_at(self, i: u32) -> Thread
        ensures { result ≡ thread_at self i }
    {
        self.thread.get(i as usize).copied().unwrap_or_default()
    }

    // Thread i's record is t, where there is a thread i. By index: after get_mut a proof knows nothing of the element.
    #[tactic(auto, unfolding(crate::specs::Record::with_thread))]
    pub fn with_thread(mut self, i: u32, t: Thread) -> Control
        ensures { result ≡ with_thread self i t }
    {
        if i < Control::MAX_THREADS {
            self.thread[i as usize] = t;
        }
        self
    }
}
