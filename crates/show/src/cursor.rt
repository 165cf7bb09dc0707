// Reading the acts of a file one by one.
ghost use Rattle.std.specs.Prelude.{◌≡◌, ◌<◌, [], length, IfSome, Ok, Err, MatchOption, MatchResult, OnOk};
ghost use Rattle.acts.specs.Acts.{act_of};
ghost use Rattle.network.specs.Networks.{contents};
ghost use Rattle.show.specs.Reading.{prepended};
ghost use Rattle.show.specs.Cursors.{left, accepted};

use crate::act_lines::Acts;
use crate::fault::{Fault, on_line, without_end};
use acts::{Act, read_act};
use network::Network;
use text::cut;

impl<'a> Acts<'a> {
    // The next act, if there is one. A refusal leaves the cursor where it is.
    pub fn next(&mut self, network: &Network) -> Option<Result<Act<'a>, Fault>>
        ensures onward { IfSome result (λ a. OnOk a (length self.new.rest.now < length self.old.rest.now)) }
        ensures act { MatchOption result ((left (contents network.now) self.old ≡ Ok []) × (self.new ≡ self.old)) (λ a. MatchResult a (λ act. left (contents network.now) self.old ≡ prepended (act_of act) (left (contents network.now) self.new)) (λ f. (left (contents network.now) self.old ≡ Err f) × (self.new ≡ self.old))) }
    {
        let line = self.first as usize + usize::from(self.count);
        let (this, more) = cut(self.rest, b'\n');
        let Some(more) = more else {
            return Some(Err(without_end(line, this)?));
        };
        let act = read_act(network, usize::from(self.count), this);
        if act.is_ok() {
            self.rest = more;
            self.count += 1;
        }
        Some(act.map_err(|fault| on_line(line, fault)))
    }
}

// Reads all acts; the first refusal is the one that comes.
#[tactic(auto, using(crate::proofs::Accepting::accepted_prepended))]
pub(crate) fn check_acts(acts: Acts<'_>, network: &Network) -> Result<(), Fault>
    ensures { result ≡ accepted (left (contents network.now) acts.entry) }
{
    let mut cursor = acts;
    while let Some(act) = cursor.next(network) {
        act?;
    }
    Ok(())
}
