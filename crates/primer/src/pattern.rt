// The search for a primer is shift-and: one step for each text byte, however long the primer is. After each byte, bit j of the state says
// whether the last j + 1 bytes fit the primer's first j + 1 letters. The primer AN in the text TAG: T leaves 00, A leaves 01 (A fits the first
// letter), G leaves 10 (AG fits both). The last letter's bit is set: the primer ends here, and began at place 1.
ghost use Rattle.std.specs.Prelude.{◌≡◌, ℕ, ◌+◌, ◌-◌, ◌^◌, ◌≤◌, ◌<◌, length, get_or};
ghost use Rattle.primer.specs.Search.{first_of};
ghost use Rattle.primer.specs.Live.{mask_of, state_of, Passed, Reading};

// A primer that is searched for: for each byte the letters that it fits, and the bit of the last letter.
#[derive(Drop)]
pub(crate) struct Pattern<'a> {
    primer: &'a [u8],
    masks: [u32; 256],
    last: u32,
    ghost some: { 1 ≤ length primer.now },
    ghost fewer: { length primer.now ≤ 31 },
    ghost fits: { (b : ℕ) → b < 256 → get_or masks b 0 ≡ mask_of primer.now b },
    ghost ends: { last ≡ 2 ^ (length primer.now - 1) },
}

// A state of the search, and the bits of all states on the way to it.
#[derive(Clone, Copy)]
struct Run {
    state: u32,
    seen: u32,
}

impl<'a> Pattern<'a> {
    // The pattern of a primer.
    pub(crate) fn new(primer: &'a [u8]) -> Pattern<'a>
        requires { (1 ≤ length primer.now) × (length primer.now ≤ 31) }
        ensures { result.primer.now ≡ primer.now }
    {
        Pattern {
            primer,
            masks: crate::masks_by_byte(primer),
            last: 1 << (primer.len() - 1),
        }
    }

    // Sixteen bytes more, without a branch.
    fn run16(&self, text: &[u8], at: usize, begun: u32) -> Run
        requires { Reading self.now.primer.now text.now self.now.masks at begun × Passed self.now.primer.now text.now at × (at + 16 ≤ length text.now) }
        ensures { (result.state ≡ state_of self.now.primer.now text.now (at + 16)) × (result.seen < self.now.last → Passed self.now.primer.now text.now (at + 16)) }
    {
        let mut state = begun;
        let mut seen: u32 = 0;
        for k in 0..16 {
            state = (state * 2 + 1) & self.masks[text[at + k] as usize];
            seen |= state;
        }
        Run { state, seen }
    }

    // The search from a place on, byte by byte.
    fn find_from(&self, text: &[u8], at: usize, begun: u32) -> Option<usize>
        requires { Reading self.now.primer.now text.now self.now.masks at begun × Passed self.now.primer.now text.now at }
        ensures { result ≡ first_of self.now.primer.now text.now }
    {
        let mut state = begun;
        for i in at..text.len() {
            state = (state * 2 + 1) & self.masks[text[i] as usize];
            if self.last <= state {
                return Some(i + 1 - self.primer.len());
            }
        }
        None
    }

    // The search by blocks: if the primer may end in a block, that block is searched byte by byte.
    pub(crate) fn find(&self, text: &[u8]) -> Option<usize>
        ensures { result ≡ first_of self.now.primer.now text.now }
    {
        let mut state: u32 = 0;
        let blocks = text.len() / 16;
        for b in 0..blocks {
            let next = self.run16(text, 16 * b, state);
            if self.last <= next.seen {
                return self.find_from(text, 16 * b, state);
            }
            state = next.state;
        }
        self.find_from(text, 16 * blocks, state)
    }
}
