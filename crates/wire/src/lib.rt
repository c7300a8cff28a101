// Events and answers as numbers, as a block of events holds them.
#![tactic(auto)]

ghost use Rattle.std.specs.Prelude.{◌≡◌};
ghost use Rattle.rules.specs.Block.{is_kind, event_of, event_in, six};

use rules::{Answer, Event, Line};

// Whether it is the kind of an event. It and `event_of` stay beside `event_in`, which can fail: `is_kind_only` and `event_of_only` speak of them.
#[tactic(auto, unfolding(rules::specs::Block::is_kind))]
pub fn is_kind(kind: u32) -> bool
    ensures { result ≡ is_kind kind }
{
    matches!(kind, 1..=7)
}

// The event of a kind, a thread or line and an item: a match that gives a value. A number that is no kind makes a cut too: `event_in` tells them apart.
#[tactic(auto, unfolding(rules::specs::Block::event_of))]
pub fn event_of(kind: u32, place: u32, item: u32) -> Event
    ensures { result ≡ event_of kind place item }
{
    match kind {
        1 => Event::Put(place, item),
        2 => Event::Take(place),
        3 => Event::Go(place),
        4 => Event::Back(Line::Cell(place)),
        5 => Event::Back(Line::Copy(place)),
        6 => Event::Back(Line::Tail),
        _ => Event::Cut,
    }
}

// The event that three numbers are, if they are one: a kind, a thread or line and an item.
#[tactic(auto, unfolding(rules::specs::Block::event_in))]
pub fn event_in(three: [u32; 3]) -> Option<Event>
    ensures { result ≡ event_in three }
{
    let [kind, place, item] = three;
    is_kind(kind).then(|| event_of(kind, place, item))
}

// An answer in six numbers: its own, its values, and zeros. A function, as `event_in` is: neither type is this crate's, so `From` could not be implemented here.
#[tactic(auto, unfolding(rules::specs::Block::six, rules::specs::Answers::numbers))]
pub fn numbers(a: Answer) -> [u32; 6]
    ensures { result ≡ six a }
{
    match a {
        Answer::Refused(k) => [0, k, 0, 0, 0, 0],
        Answer::Begun(t) => [1, t, 0, 0, 0, 0],
        Answer::Drew(b) => [2, b.thread, b.number, 0, 0, 0],
        Answer::Looked(b, j) => [3, b.thread, b.number, j, 0, 0],
        Answer::SawHead(b, v) => [4, b.thread, b.number, v, 0, 0],
        Answer::Landed(b, j, x) => [5, b.thread, b.number, j, x, 0],
        Answer::Missed(b, j) => [6, b.thread, b.number, j, 0, 0],
        Answer::Asked(b) => [7, b.thread, b.number, 0, 0, 0],
        Answer::Waiting(b) => [8, b.thread, b.number, 0, 0, 0],
        Answer::Ok(b, x) => [9, b.thread, b.number, x, 0, 0],
        Answer::Closed(b) => [10, b.thread, b.number, 0, 0, 0],
        Answer::SetClosed(b) => [11, b.thread, b.number, 0, 0, 0],
        Answer::Took(b, j, x) => [12, b.thread, b.number, j, x, 0],
        Answer::Flagged(b, j) => [13, b.thread, b.number, j, 0, 0],
        Answer::Passed(b, j) => [14, b.thread, b.number, j, 0, 0],
        Answer::SawTail(b, v) => [15, b.thread, b.number, v, 0, 0],
        Answer::Lifted(b, v) => [16, b.thread, b.number, v, 0, 0],
        Answer::Copied(b, v) => [17, b.thread, b.number, v, 0, 0],
        Answer::Item(b, x) => [18, b.thread, b.number, x, 0, 0],
        Answer::Empty(b) => [19, b.thread, b.number, 0, 0, 0],
        Answer::Written(l) => [20, l.kind(), l.place(), 0, 0, 0],
        Answer::Cut(f) => [21, f.mark, f.head, f.tail, f.closed, f.count],
    }
}
