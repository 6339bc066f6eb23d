// Records in short lists: each list is one call of the batch, and its answers are told by words.
ghost use Rattle.std.specs.Prelude.{◌≡◌, ◌+◌, ◌-◌, ◌<◌, replicate};
ghost use Rattle.steps.specs.Memory.{words_mut, SameLent};
ghost use Rattle.acts.specs.Worlds.{world};
ghost use Rattle.play.specs.Inner.{list_records, kind_of, count_of, word_lines, Short, Room, Played, Shown};

use lanes::State;
use qhs::{LAST_KIND, Record};
use steps::LentMut;

// The records of a list at the most: its words and its fields are on the stack.
const LIST: usize = 32;

// How many records the next list has, of so many that are left.
fn count(left: usize) -> usize
    ensures { result ≡ count_of left }
{
    left.min(LIST)
}

// In a batch the last kind alone begins an asked; in a schedule every kind from it on does.
fn kind_of(d: Record) -> u8
    ensures { result ≡ kind_of d }
{
    d.kind.min(LAST_KIND)
}

// Plays the c records from record `first` on.
fn played(
    bytes: &[u8],
    first: usize,
    c: usize,
    s: State,
    words: &mut [u64],
    lent: &mut LentMut<'_>,
) -> State
    requires { Short first c words.old }
    ensures same { SameLent lent.old lent.new }
    ensures done { Played bytes.now first c (world s (words_mut lent.old))
        (world result (words_mut lent.new)) words.new }
{
    let mut kinds = [0u8; LIST];
    let mut processes = [0u32; LIST];
    let mut cells = [0u32; LIST];
    let mut values = [0u32; LIST];
    for i in 0..c {
        let d = qhs::record_at(bytes, first + i);
        kinds[i] = kind_of(d);
        processes[i] = u32::from(d.process);
        cells[i] = d.cell;
        values[i] = d.value;
    }
    batch::run(s, &kinds[..c], &processes, &cells, &values, words, lent)
}

// How far the records are played: the state, the record that is next, and the words of the last list's answers.
#[derive(Drop)]
pub struct Player {
    pub state: State,
    pub next: usize,
    pub words: [u64; LIST],
}

impl Player {
    // Before the first record.
    pub fn new(state: State) -> Self
        ensures state { result.state ≡ state }
        ensures next { result.next ≡ 0 }
        ensures words { result.words ≡ replicate list_records 0 }
    {
        Player {
            state,
            next: 0,
            words: [0; LIST],
        }
    }

    // Plays the next list of the n records; how many it has.
    pub fn list(&mut self, bytes: &[u8], n: usize, lent: &mut LentMut<'_>) -> usize
        requires { self.old.next < n }
        ensures same { SameLent lent.old lent.new }
        ensures count { result ≡ count_of (n - self.old.next) }
        ensures on { self.new.next ≡ self.old.next + result }
        ensures done { Played bytes.now self.old.next result (world self.old.state (words_mut lent.old))
            (world self.new.state (words_mut lent.new)) self.new.words }
    {
        let first = self.next;
        let c = count(n - first);
        self.state = played(bytes, first, c, self.state, &mut self.words, lent);
        self.next = first + c;
        c
    }
}

// Writes the lines of the c records from record `first` on, whose answers the words tell; where they end.
pub fn lines(first: usize, c: usize, words: &[u64], at: usize, out: &mut [u8]) -> usize
    requires { Room first c words.now at out.old }
    ensures { Shown c out.old at (word_lines first words.now c) out.new result }
{
    let mut end = at;
    for i in 0..c {
        let a = batch::answer_of(words[i]);
        end = text::put_answer(out, end, first + i, a).unwrap_or(0);
    }
    end
}
