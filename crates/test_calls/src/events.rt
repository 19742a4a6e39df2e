//! Rows of events and replies, by hand: a letter for each.
use crate::edits::batch_of;
use past_model::{Edit, FEEDS, MOST_EDITS, SERVED_VERTICES};
use std::alloc::{AllocError, Global};
use std::test::Fail;
use stream_core::{Event, Reply, World, run, step};

// Edits of two ranges, of which 3-299 and 299-5 stay.
const TWO_RANGES: [Edit; 4] = [
    Edit::Insert(299, 7),
    Edit::Insert(3, 299),
    Edit::Remove(299, 7),
    Edit::Insert(299, 5),
];

fn submission(alloc: Global, feed: u8, edits: &[Edit]) -> Result<Event, AllocError> {
    let batch = batch_of(alloc, edits)?;
    Ok(Event::Submit { feed, batch })
}

// As many edges out of vertex 0 as a batch may have edits.
fn most_edits(alloc: Global) -> Result<Vec<Edit>, AllocError> {
    let mut edits = Vec::new(alloc);
    for target in 0..MOST_EDITS as u32 {
        edits.push(Edit::Insert(0, target))?;
    }
    Ok(edits)
}

const fn pin(reader: u8, vertex: u32) -> Event {
    Event::Pin { reader, vertex }
}

// The event of a letter: `s`, `w` and `m` submit, `m` the most edits, `l` by the last feed, `f` by a feed that there is not, `v` and `u` edges of a vertex that there is not; `t`
// takes, a digit is a part, `p` publishes, `r` rebases; capital letters pin, and small ones of the same lend.
fn event_of(alloc: Global, letter: char) -> Result<Event, AllocError> {
    match letter {
        's' => submission(alloc, 0, &[Edit::Insert(0, 1)]),
        'w' => submission(alloc, 1, &TWO_RANGES),
        'm' => submission(alloc, 0, &most_edits(alloc)?),
        'f' => submission(alloc, FEEDS, &[Edit::Insert(0, 1)]),
        'v' => submission(alloc, 0, &[Edit::Insert(300, 0)]),
        'u' => submission(alloc, 3, &[Edit::Remove(0, 300)]),
        'l' => submission(alloc, 3, &[Edit::Insert(0, 2)]),
        't' => Ok(Event::Take),
        '0' => Ok(Event::Part { range: 0 }),
        '1' => Ok(Event::Part { range: 1 }),
        '2' => Ok(Event::Part { range: 2 }),
        'r' => Ok(Event::Rebase),
        'A' => Ok(pin(0, 0)),
        'a' => Ok(Event::Lend { reader: 0 }),
        'B' => Ok(pin(15, 299)),
        'b' => Ok(Event::Lend { reader: 15 }),
        'C' => Ok(pin(16, 0)),
        'c' => Ok(Event::Lend { reader: 16 }),
        'D' => Ok(pin(0, 300)),
        'E' => Ok(pin(0, SERVED_VERTICES - 1)),
        _ => Ok(Event::Publish),
    }
}

// A sign for a reply: `d` for done, `r` for refused, `e` for the end, the digit of the only word that is lent, and `s`
// for another slice.
fn sign_of(reply: &Reply) -> char {
    match reply {
        Reply::Done => 'd',
        Reply::Refused => 'r',
        Reply::End => 'e',
        Reply::Slice(words) => match words.first() {
            Some(word) if words.len() == 1 && *word < 10 => char::from(b'0' + *word as u8),
            _ => 's',
        },
    }
}

// The sign of what the event of a letter is answered.
fn answer(alloc: Global, world: &mut World, letter: char) -> Result<char, AllocError> {
    let reply = step(world, event_of(alloc, letter)?)?;
    Ok(sign_of(&reply))
}

// The signs of what events are answered.
fn signs_of(alloc: Global, world: &mut World, letters: &str) -> Result<String, AllocError> {
    let mut signs = String::new(alloc);
    for letter in letters.chars() {
        signs.push(answer(alloc, world, letter)?)?;
    }
    Ok(signs)
}

// The same in a store of 300 vertices in which nothing has happened.
fn from_opening(alloc: Global, letters: &str) -> Result<String, AllocError> {
    let mut world = World::new(alloc, 300)?;
    signs_of(alloc, &mut world, letters)
}

// The same in the greatest store that is served.
fn from_greatest(alloc: Global, letters: &str) -> Result<String, AllocError> {
    let mut world = World::new(alloc, SERVED_VERTICES)?;
    signs_of(alloc, &mut world, letters)
}

// A reader pins before a batch is published, and again after it; the same with a rebase and a batch more; a batch that is held over a rebase, and one of the last feed; where nothing has happened only the last of the next
// events can; what cannot be submitted; a batch by the last feed; parts in either order, each of them tried once more or too early; and 65 batches, of
// which the last has no room.
const ROWS: [(&str, &str); 11] = [
    ("stA0paAaa", "ddddded1e"),
    ("stA0prlt0paAaa", "ddddddddddedse"),
    ("strA0pAaa", "ddddddd1e"),
    ("ltrA0pAaa", "ddddddd2e"),
    ("t0pacCDB", "rrrrrrrd"),
    ("fvu", "rrr"),
    ("lt0pAa", "ddddd2"),
    ("wttp002p1pBbbb", "ddrrdrrrddd5ee"),
    ("wttp112p0pBbbb", "ddrrdrrrddd5ee"),
    (
        "sssssssssssssssssssssssssssssssssssssssssssssssssssssssssssssssss",
        "ddddddddddddddddddddddddddddddddddddddddddddddddddddddddddddddddr",
    ),
    (
        "sssssssssssssssssssssssssssssssssssssssssssssssssssssssssssssssst0ps",
        "dddddddddddddddddddddddddddddddddddddddddddddddddddddddddddddddddddd",
    ),
];

#[test]
fn rows(rt: HostRuntime) -> Result<(), Fail> {
    for (letters, wanted) in ROWS {
        let signs = from_opening(rt.alloc(), letters)?;
        assert_eq!(rt; signs.as_str(), wanted, "{letters}");
    }
    Ok(())
}

// The same of a whole list of events, by one call.
fn run_from_greatest(alloc: Global, letters: &str) -> Result<String, AllocError> {
    let mut events = Vec::new(alloc);
    for letter in letters.chars() {
        events.push(event_of(alloc, letter)?)?;
    }
    let (_, replies) = run(alloc, SERVED_VERTICES, &events)?;
    let mut signs = String::new(alloc);
    for reply in &replies {
        signs.push(sign_of(reply))?;
    }
    Ok(signs)
}

// 1,025 batches, each submitted, taken, done and published, and then the last vertex, which has no neighbour.
#[test]
fn many_publications(rt: HostRuntime) -> Result<(), Fail> {
    let alloc = rt.alloc();
    let mut letters = String::new(alloc);
    let mut wanted = String::new(alloc);
    for _ in 0..1_025 {
        letters.push_str("st0p")?;
        wanted.push_str("dddd")?;
    }
    letters.push_str("EaAa")?;
    wanted.push_str("ded1")?;
    let stepped = from_greatest(alloc, &letters)?;
    let ran = run_from_greatest(alloc, &letters)?;
    assert_eq!(rt; stepped.as_str(), wanted.as_str());
    assert_eq!(rt; ran.as_str(), wanted.as_str());
    Ok(())
}

// A vertex of 65,536 neighbours is lent all of them, ascending, in some slices.
#[test]
fn the_most_edits_in_the_greatest_store(rt: HostRuntime) -> Result<(), Fail> {
    let alloc = rt.alloc();
    let mut world = World::new(alloc, SERVED_VERTICES)?;
    let signs = signs_of(alloc, &mut world, "mt0pA")?;
    assert_eq!(rt; signs.as_str(), "ddddd");
    let mut lent = Vec::new(alloc);
    for _ in 0..MOST_EDITS {
        let Reply::Slice(words) = step(&mut world, Event::Lend { reader: 0 })? else {
            break;
        };
        for word in &words {
            lent.push(*word)?;
        }
    }
    assert_eq!(rt; lent.len(), MOST_EDITS);
    assert!(rt;
        lent.iter().copied().eq(0..MOST_EDITS as u32),
        "other words"
    );
    Ok(())
}
