use dict_format::read_file;
use dict_layers::System;
use expectations::same_at;
use romaji_rules::Rules;
use session_world::{Event, World, WorldFault};
use skk_calls::{Books, Refusal};
use skk_text::read_keys;
use std::alloc::Global;
use std::process::Abort;

// A dictionary of one reading.
const DICTIONARY: &str = ";; okuri-ari entries.\n;; okuri-nasi entries.\nかんじ /漢字/幹事;宴会の/感じ/\n";

// A world of two sessions in the shared book over that dictionary, with the standard rules.
fn new_world(rt: &impl Abort, alloc: Global) -> World {
    let mut books = Books::new(alloc);
    books
        .push(
            read_file(alloc, DICTIONARY.as_bytes())
                .expect(rt, "a file")
                .book,
        )
        .expect(rt, "memory");
    let system = System::of_books(alloc, books).expect(rt, "memory");
    World::new(
        alloc,
        &[(1, 0), (2, 0)],
        Rules::standard(alloc).expect(rt, "memory"),
        system,
    )
    .expect(rt, "memory")
}

// A world of one session in its own book over no dictionary.
fn small_world(rt: &impl Abort, alloc: Global) -> World {
    let system = System::of_books(alloc, Books::new(alloc)).expect(rt, "memory");
    World::new(
        alloc,
        &[(1, 1)],
        Rules::standard(alloc).expect(rt, "memory"),
        system,
    )
    .expect(rt, "memory")
}

// The world after an event, and whether that came: the world is handed back where it may not come now.
fn step(rt: &impl Abort, alloc: Global, world: World, event: Event) -> (World, bool) {
    match world.step(alloc, event) {
        Ok(world) => (world, true),
        Err(WorldFault::NotNow { world }) => (world, false),
        Err(WorldFault::Memory) => panic!(rt; "out of memory"),
    }
}

// The world after the keys of a text were started, one after another, and whether each came.
fn start_keys(
    rt: &impl Abort,
    alloc: Global,
    world: World,
    place: usize,
    text: &str,
) -> (World, bool) {
    let mut world = world;
    let mut came = true;
    for key in read_keys(alloc, text.as_bytes()).expect(rt, "keys").iter() {
        (world, came) = step(rt, alloc, world, Event::Key(place, *key));
    }
    (world, came)
}

// A refusal by its name.
fn refusal_by(name: &str) -> Refusal {
    match name {
        "disk" => Refusal::Disk,
        "full" => Refusal::JournalFull {
            end: 1,
            need: 2,
            limit: 3,
        },
        _ => Refusal::Memory,
    }
}

// The world after what a command names, and whether that came.
fn run(
    rt: &impl Abort,
    alloc: Global,
    world: World,
    command: &str,
    place: usize,
    word: &str,
) -> (World, bool) {
    match command {
        "keys" => start_keys(rt, alloc, world, place, word),
        "serve" => step(rt, alloc, world, Event::Serve(place)),
        "refuse" => step(rt, alloc, world, Event::Refuse(place, refusal_by(word))),
        _ => step(rt, alloc, world, Event::Crash(word == "keeping")),
    }
}

// The display and the notice of a session.
fn shown(rt: &impl Abort, alloc: Global, world: &World, place: usize) -> String {
    let session = world.session(place).expect(rt, "no session");
    let display = session.display(alloc).expect(rt, "memory");
    let notice = session.notice(alloc).expect(rt, "memory");
    format!(in alloc; "{}|{}", display.as_str(), notice.as_str()).expect(rt, "memory")
}

// What a command leaves: the display and the notice of the session of its place, where it came.
fn told(rt: &impl Abort, alloc: Global, world: &World, place: usize, came: bool) -> String {
    if came {
        shown(rt, alloc, world, place)
    } else {
        "not now".to_string(alloc).expect(rt, "memory")
    }
}

// A command, a place, a word, and what is told.
type Line = (&'static str, usize, &'static str, &'static str);

// Two sessions learn in the shared book, and overtake each other. Each cause for which an event may not come now stands
// among the lines.
static LINES: &[Line] = &[
    ("serve", 0, "", "not now"),
    ("serve", 2, "", "not now"),
    ("refuse", 0, "memory", "not now"),
    ("refuse", 2, "memory", "not now"),
    ("keys", 2, "a", "not now"),
    ("crash", 0, "keeping", "not now"),
    ("keys", 0, "a", "あ|"),
    ("keys", 0, "<bs>", "|"),
    ("keys", 0, "Kanji", "▽かんじ|"),
    ("keys", 0, " ", "▽かんじ|"),
    ("keys", 0, "a", "not now"),
    ("refuse", 0, "disk", "not now"),
    ("refuse", 0, "full", "not now"),
    ("keys", 1, "Kanji", "▽かんじ|"),
    ("keys", 1, " ", "▽かんじ|"),
    ("serve", 1, "", "▼漢字|"),
    ("serve", 1, "", "not now"),
    ("refuse", 0, "memory", "▽かんじ|refused memory"),
    ("keys", 0, " ", "▽かんじ|refused memory"),
    ("serve", 0, "", "▼漢字|"),
    ("keys", 1, " ", "▼幹事|;宴会の"),
    ("keys", 1, " ", "▼感じ|"),
    ("keys", 1, "<cj>", "▼感じ|"),
    ("keys", 0, "<cj>", "▼漢字|"),
    ("refuse", 0, "disk", "漢字|refused disk"),
    ("serve", 1, "", "感じ|"),
    ("crash", 0, "keeping", "not now"),
    ("keys", 0, "Kanji", "漢字▽かんじ|"),
    ("keys", 0, " ", "漢字▽かんじ|"),
    ("serve", 0, "", "漢字▼感じ|"),
    ("keys", 0, " ", "漢字▼漢字|"),
    ("keys", 0, "<cj>", "漢字▼漢字|"),
    ("serve", 0, "", "漢字漢字|"),
    ("keys", 1, "<undo>", "感じ|"),
    ("refuse", 1, "disk", "not now"),
    ("serve", 1, "", "▼感じ|overtaken 2"),
    ("keys", 1, "<undo>", "▼感じ|"),
    ("keys", 0, "<undo>", "漢字漢字|"),
    ("refuse", 0, "full", "漢字▼漢字|refused full 1 2 3"),
    ("crash", 0, "keeping", "not now"),
    ("keys", 1, "<cj>", "▼感じ|"),
    ("refuse", 1, "disk", "感じ|refused disk"),
    ("crash", 0, "keeping", "|"),
    ("serve", 1, "", "not now"),
    ("crash", 0, "keeping", "not now"),
    ("keys", 0, "Kanji", "▽かんじ|"),
    ("keys", 0, " ", "▽かんじ|"),
    ("serve", 0, "", "▼感じ|"),
    ("keys", 0, " ", "▼漢字|"),
    ("keys", 0, "<cj>", "▼漢字|"),
    ("refuse", 0, "disk", "漢字|refused disk"),
    ("crash", 0, "", "|"),
    ("crash", 0, "keeping", "not now"),
    ("keys", 1, "Kanji", "▽かんじ|"),
    ("keys", 1, " ", "▽かんじ|"),
    ("serve", 1, "", "▼感じ|"),
];

// Nothing was asked at first, and a key that asks nothing is shown at once.
static ONE_SESSION: &[Line] = &[("serve", 0, "", "not now"), ("keys", 0, "a", "あ|")];

#[test]
fn a_world_of_one_session_steps(rt: HostRuntime) {
    let world = small_world(&rt, rt.alloc());
    expect_lines(&rt, rt.alloc(), world, ONE_SESSION)
}

#[test]
fn worlds_step(rt: HostRuntime) {
    let world = new_world(&rt, rt.alloc());
    expect_lines(&rt, rt.alloc(), world, LINES)
}

// Tells what each of these commands leaves, one after another.
fn expect_lines<R: Abort>(rt: &R, alloc: Global, world: World, lines: &[Line]) {
    let mut world = world;
    for line in lines {
        world = after_line(rt, alloc, world, line);
    }
}

// The world after a command, of which this is told.
fn after_line<R: Abort>(rt: &R, alloc: Global, world: World, line: &Line) -> World {
    let (command, place, word, _) = *line;
    let (world, came) = run(rt, alloc, world, command, place, word);
    expect_told(rt, alloc, &world, came, line);
    world
}

fn expect_told<R: Abort>(rt: &R, alloc: Global, world: &World, came: bool, line: &Line) {
    let (_, place, _, wanted) = *line;
    let told = told(rt, alloc, world, place, came);
    same_at(told.as_str(), wanted, line).expect(rt, "as wanted");
}
