// A line of ringrun's input as a command.
ghost use Rattle.std.specs.Prelude.{◌≡◌, ◌++◌, option_map};
ghost use Rattle.bench.specs.Read.{number_from, number, after_space, numbers, understood, line_of};
ghost use Rattle.bench.specs.Text.{bytes};

use rules::{Event, Line};

#[derive(Clone, Copy)]
pub enum Command {
    Ring(u32, u32, u32),
    Event(Event),
}

// The number that the digits at the front of a line make, after digits that made v, and what comes after it. No `parse`: it takes a sign and leading zeros.
fn number_from(mut v: u32, s: &[u8]) -> Option<(u32, &[u8])>
    ensures { option_map (λ p. (p.0, p.1.now)) result ≡ number_from v s.now }
{
    let mut rest = s;
    while let [b @ b'0'..=b'9', after @ ..] = rest {
        v = v.checked_mul(10)?.checked_add(u32::from(*b - b'0'))?;
        rest = after;
    }
    Some((v, rest))
}

// The number at the front of a line, without leading zeros, and what comes after it.
#[tactic(auto, unfolding(crate::specs::Read::number))]
fn number(s: &[u8]) -> Option<(u32, &[u8])>
    ensures { option_map (λ p. (p.0, p.1.now)) result ≡ number s.now }
{
    match s {
        [b'0', b'0'..=b'9', ..] => None,
        [b'0', rest @ ..] => Some((0, rest)),
        [b @ b'1'..=b'9', rest @ ..] => number_from(u32::from(*b - b'0'), rest),
        _ => None,
    }
}

// The number after the one space at the front of a line, and what comes after it.
#[tactic(auto, unfolding(crate::specs::Read::after_space))]
fn after_space(s: &[u8]) -> Option<(u32, &[u8])>
    ensures { option_map (λ p. (p.0, p.1.now)) result ≡ after_space s.now }
{
    match s {
        [b' ', rest @ ..] => number(rest),
        _ => None,
    }
}

// N numbers, each after one space, that end the line.
fn numbers<const N: usize>(s: &[u8]) -> Option<[u32; N]>
    ensures { result ≡ numbers N s.now }
{
    let mut ns = [0; N];
    let mut rest = s;
    for n in ns.iter_mut() {
        (*n, rest) = after_space(rest)?;
    }
    rest.is_empty().then_some(ns)
}

// The line that a write-back names, by what comes after "back ".
#[tactic(auto, unfolding(crate::specs::Read::command_of, crate::specs::Read::first_word))]
fn back(s: &[u8]) -> Option<Line>
    ensures { option_map (λ l. Command.Event (Event.Back l)) result ≡ understood (bytes "back " ++ s.now) }
{
    match s {
        [b'c', b'e', b'l', b'l', rest @ ..] => {
            let [cell] = numbers::<1>(rest)?;
            Some(Line::Cell(cell))
        }
        [b'c', b'o', b'p', b'y', rest @ ..] => {
            let [thread] = numbers::<1>(rest)?;
            Some(Line::Copy(thread))
        }
        [b't', b'a', b'i', b'l', rest @ ..] => {
            let [] = numbers::<0>(rest)?;
            Some(Line::Tail)
        }
        _ => None,
    }
}

// The command that a line is, without its newline, if it is understood.
#[inline(always)]
#[tactic(auto, unfolding(crate::specs::Read::line_of, crate::specs::Read::command_of, crate::specs::Read::first_word))]
pub fn line(s: &[u8]) -> Option<Command>
    ensures { result ≡ line_of s.now }
{
    if 40 < s.len() {
        return None;
    }
    let event = match s {
        [b'r', b'i', b'n', b'g', rest @ ..] => {
            let [cells, threads, tries] = numbers::<3>(rest)?;
            return Some(Command::Ring(cells, threads, tries));
        }
        [b'p', b'u', b't', rest @ ..] => {
            let [thread, item] = numbers::<2>(rest)?;
            Event::Put(thread, item)
        }
        [b't', b'a', b'k', b'e', rest @ ..] => {
            let [thread] = numbers::<1>(rest)?;
            Event::Take(thread)
        }
        [b'g', b'o', rest @ ..] => {
            let [thread] = numbers::<1>(rest)?;
            Event::Go(thread)
        }
        [b'b', b'a', b'c', b'k', b' ', rest @ ..] => Event::Back(back(rest)?),
        [b'c', b'u', b't', rest @ ..] => {
            let [] = numbers::<0>(rest)?;
            Event::Cut
        }
        _ => return None,
    };
    Some(Command::Event(event))
}
