// The sections of a show file.
ghost use Rattle.std.specs.Prelude.{◌≡◌};
ghost use Rattle.show.specs.Sections.{due, next};

use lines::LineFault;

// The section that a line stands in: a state, since what comes next depends on it, and not a function to be called.
#[derive(Clone, Copy, PartialEq, Eq, Debug)]
pub(crate) enum Section {
    // nothing is read yet
    Opening,
    // the time line is due
    Time,
    // the time line is read
    Timed,
    Clocks,
    Counters,
    Channels,
    Places,
    Edges,
}

impl Section {
    // The names line that is next due.
    pub(crate) fn due(self) -> &'static [u8]
        ensures { result.now ≡ due self }
    {
        match self {
            Section::Opening => b"time",
            Section::Time | Section::Timed => b"clock",
            Section::Clocks => b"counter low high first",
            Section::Counters => b"channel",
            Section::Channels => b"part place when",
            Section::Places => b"part from to when if call reset do",
            Section::Edges => b"act one two",
        }
    }

    // The section that it opens; none where the run begins.
    pub(crate) fn next(self) -> Result<Option<Section>, LineFault>
        ensures { result ≡ next self }
    {
        match self {
            Section::Opening => Ok(Some(Section::Time)),
            Section::Time => Err(LineFault::Disorder),
            Section::Timed => Ok(Some(Section::Clocks)),
            Section::Clocks => Ok(Some(Section::Counters)),
            Section::Counters => Ok(Some(Section::Channels)),
            Section::Channels => Ok(Some(Section::Places)),
            Section::Places => Ok(Some(Section::Edges)),
            Section::Edges => Ok(None),
        }
    }
}
