ghost use Rattle.std.specs.Prelude.{◌≡◌, true, false, [], ◌∷◌};

use skk_trace::{Shows, Trace};
use std::alloc::Global;
use std::process::Abort;

// A disk, of which contracts see how many blocks it has.
trait ToldDisk {
    ghost use Rattle.std.specs.Prelude.{ℕ};

    ghost blocks: { Self → ℕ };
}

#[derive(Drop)]
struct SmallDisk {
    blocks: u64,
}

impl ToldDisk for SmallDisk {
    ghost blocks = { λ disk. disk.blocks };
}

// What a disk answered, as contracts see it. No value of it is made.
struct AnswerEvent {
    blocks: u64,
    full: bool,
}

// A disk and its answer.
#[derive(Drop)]
struct AnsweredDisk<'a, D> {
    disk: &'a D,
    full: bool,
}

impl<D: ToldDisk> Shows<AnswerEvent> for AnsweredDisk<'_, D> {
    ghost shows = { λ answered. record { blocks = D.blocks answered.disk.now; full = answered.full } };
}

// Three answers of a disk, in order.
fn three_answers<D: ToldDisk>(rt: &impl Abort, alloc: Global, disk: &D) -> Trace<AnswerEvent>
    ensures { result ≡ record {
      blocks = D.blocks disk.now;
      full = false;
    } ∷ record { blocks = D.blocks disk.now; full = true } ∷ record { blocks = D.blocks disk.now; full = false } ∷ [] }
{
    let mut trace = Trace::new(alloc, &AnsweredDisk { disk, full: false }).expect(rt, "memory");
    trace.note(&AnsweredDisk { disk, full: true });
    trace.note(&AnsweredDisk { disk, full: false });
    trace
}

fn send<T: Send>(value: T) -> T
    ensures { result ≡ value }
{
    value
}

#[test]
fn a_trace_is_made_and_noted_in(rt: HostRuntime) {
    let disk = SmallDisk { blocks: 3 };
    let mut trace = send(three_answers(&rt, rt.alloc(), &disk));
    for _ in 0..100 {
        trace.note(&AnsweredDisk {
            disk: &disk,
            full: true,
        });
    }
}
