// A view that keeps the lent bytes and a place, as the original's `sequence::Reader` does. A step applies the scanning rule from that
// place. It refuses nothing. `first_run` is for callers that have bytes and a place.
ghost use Rattle.std.specs.Prelude.{◌≡◌};
ghost use Rattle.sequence.specs.Scan.{run_at};

use lines::Span;

#[derive(Clone, Copy)]
pub struct Reader<'a> {
    pub src: &'a [u8],
    pub at: usize,
}

impl<'a> Reader<'a> {
    // A view of some bytes, at a place.
    pub fn new(src: &'a [u8], at: usize) -> Reader<'a>
        ensures { result ≡ record { src = src.entry; at = at } }
    {
        Reader { src, at }
    }

    // The next bases: where they begin, and how many they are; none at '>' or the end.
    pub fn run(self) -> Span
        ensures { result ≡ run_at self.entry.src.now self.entry.at }
    {
        crate::next_run(self.src, self.at)
    }

    // The same view, at another place.
    pub fn moved(self, at: usize) -> Reader<'a>
        ensures { result ≡ record { src = self.entry.src; at = at } }
    {
        Reader { at, ..self }
    }
}

// The first bases from a place, through a view.
pub(crate) fn first_run(s: &[u8], at: usize) -> Span
    ensures { result ≡ run_at s.now at }
{
    Reader::new(s, at).run()
}
