// Drafts and shows.
ghost use Rattle.std.specs.Prelude.{◌≡◌, Err, MatchResult};
ghost use Rattle.text.specs.Answers.{Changes};
ghost use Rattle.network.specs.Networks.{contents, blank};
ghost use Rattle.show.specs.Reading.{reading, sealing};
ghost use Rattle.show.specs.Drafts.{Blank, Holds};
ghost use Rattle.show.specs.Layout.{ReadingLaw};

use crate::act_lines::Acts;
use crate::cursor::check_acts;
use crate::fault::{Fault, Spot};
use crate::reading::read_sections;
use network::Network;

// What reading fills: a network that is not sealed, and where the section of acts begins.
#[derive(Clone, Copy, PartialEq, Eq, Debug)]
pub struct Draft {
    network: Network,
    acts: Spot,
}

// A sealed network, or a blank one.
#[derive(Clone, Copy, PartialEq, Eq, Debug)]
pub struct Show {
    network: Network,
}

// A file is accepted exactly where it is laid out as the format says, and a refusal names its first line that is not.
fn law_of_layout()
    ensures { ReadingLaw }
{}

impl Draft {
    // Nothing is read.
    pub fn blank() -> Draft
        ensures { Blank result }
    {
        Draft {
            network: Network::blank(),
            acts: Spot { line: 0, field: 0 },
        }
    }

    // Reads a whole file, acts included, and gives a cursor over its acts. A refused reading leaves a blank draft.
    pub fn read<'a>(&mut self, text: &'a [u8]) -> Result<Acts<'a>, Fault>
        ensures law { ReadingLaw }
        ensures read { MatchResult result (λ acts. Holds text.now self.new acts) (λ f. (reading text.now ≡ Err f) × Blank self.new) }
    {
        law_of_layout();
        *self = Draft::blank();
        if text.len() > 60_000 {
            return Err(Fault::TooLong);
        }
        let mut network = Network::blank();
        let (line, rest) = read_sections(&mut network, text)?;
        let acts = Acts {
            rest,
            first: line as u32 + 1,
            count: 0,
        };
        check_acts(acts, &network)?;
        *self = Draft {
            network,
            acts: Spot { line, field: 1 },
        };
        Ok(acts)
    }

    // Makes a show of what was read. A refused seal leaves the show as it was.
    pub fn seal(&self, show: &mut Show) -> Result<(), Fault>
        ensures { Changes (λ s. contents s.network) show.old show.new result (sealing (contents self.now.network) self.now.acts) }
    {
        if self.network.parts.as_slice().is_empty() {
            return Err(Fault::NoPart { acts: self.acts });
        }
        *show = Show {
            network: self.network,
        };
        Ok(())
    }
}

impl Show {
    // Nothing is declared.
    pub fn blank() -> Show
        ensures { contents result.network ≡ blank }
    {
        let network = Network::blank();
        Show { network }
    }

    // What is declared.
    pub fn network(&self) -> &Network
        ensures { result.now ≡ self.now.network }
    {
        &self.network
    }
}
