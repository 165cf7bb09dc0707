// How a condition compares.
ghost use Rattle.std.specs.Prelude.{◌≡◌, option_map};
ghost use Rattle.fields.specs.Relations.{relation_front};

use limits::Comparison;

#[derive(Clone, Copy, PartialEq, Eq, Debug)]
pub enum Relation {
    Ordered(Comparison),
    Equal,
}

// The relation in front of `s`, and what stands after it.
pub(crate) fn read_relation(s: &[u8]) -> Option<(Relation, &[u8])>
    ensures { option_map (λ p. (p.0, p.1.now)) result ≡ relation_front s.now }
{
    match s {
        [b'<', b'=', rest @ ..] => Some((Relation::Ordered(Comparison::AtMost), rest)),
        [b'<', rest @ ..] => Some((Relation::Ordered(Comparison::Less), rest)),
        [b'>', b'=', rest @ ..] => Some((Relation::Ordered(Comparison::AtLeast), rest)),
        [b'>', rest @ ..] => Some((Relation::Ordered(Comparison::Greater), rest)),
        [b'=', rest @ ..] => Some((Relation::Equal, rest)),
        _ => None,
    }
}
