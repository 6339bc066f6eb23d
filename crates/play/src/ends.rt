// The grid that a schedule leaves: its records played one after the other, and no line made.
ghost use Rattle.std.specs.Prelude.{◌≡◌};
ghost use Rattle.steps.specs.Memory.{words_mut, SameLent};
ghost use Rattle.acts.specs.Worlds.{grid, world, opened_world};
ghost use Rattle.qhs.specs.Qhs.{terms_of};
ghost use Rattle.play.specs.Play.{after};

use super::lists::Player;
use lanes::State;
use qhs::Schedule;
use steps::LentMut;

// The state after the records; the lent memories then hold what belongs to it.
pub fn state_after(bytes: &[u8], file: Schedule, lent: &mut LentMut<'_>) -> State
    ensures same { SameLent lent.old lent.new }
    ensures done { world result (words_mut lent.new)
        ≡ after bytes.now (opened_world grid (terms_of file.header) (words_mut lent.old)) file.records }
{
    let n = file.records;
    let o = grid::open(qhs::terms_of(file.header), lent.as_ref());
    let mut p = Player::new(o.state);
    // The program's own loop writes lines after each list: one loop for both would take a closure whose contract is a fold, for two lines.
    while p.next < n {
        p.list(bytes, n, lent);
    }
    p.state
}
