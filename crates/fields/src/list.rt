// The items of a field.
ghost use Rattle.std.specs.Prelude.{◌≡◌, map};
ghost use Rattle.text.specs.Answers.{Answers};
ghost use Rattle.bounded.specs.Items.{items};
ghost use Rattle.fields.specs.Lists.{earlier, list_of};

use crate::item::Item;
use bounded::Bounded;
use lines::Declared;
use text::{Flaw, cut};

// Which of two flaws is asked first.
fn earlier(worst: Option<Flaw>, flaw: Flaw) -> Option<Flaw>
    ensures { result ≡ earlier worst flaw }
{
    Some(worst.map_or(flaw, |known| known.min(flaw)))
}

// `-`, or at most N items joined by ','.
pub fn read_items<I: Item, const N: usize>(
    declared: &[I::Of],
    s: &[u8],
) -> Result<Bounded<I, N>, Flaw>
    ensures { Answers items result (list_of N (I.Item.reading (map I.Of.Declared.called declared.now)) s.now) }
{
    let mut list = Bounded::new(I::BLANK);
    if matches!(s, b"-") {
        return Ok(list);
    }
    let mut worst = None;
    // by `cut`, since the iterator of a `for` over `split` is not covered in a generic function
    let mut left = Some(s);
    while let Some(text) = left {
        let (piece, rest) = cut(text, b',');
        match I::read(declared, piece) {
            Ok(item) => {
                if list.push(item).is_err() {
                    worst = earlier(worst, Flaw::Count);
                }
            }
            Err(flaw) => worst = earlier(worst, flaw),
        }
        left = rest;
    }
    match worst {
        None => Ok(list),
        Some(flaw) => Err(flaw),
    }
}
