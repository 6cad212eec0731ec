// The places that a key and what was typed both have.
ghost use Rattle.std.specs.Prelude.{◌≡◌, length};
ghost use Rattle.letters.specs.Letters.{set_of};
ghost use Rattle.letters.specs.Table.{IsTable};
ghost use Rattle.scoring.specs.Tables.{table-prop};

// The bytes of a key, what was typed for each of them, and the set of bases of each letter.
#[derive(Clone, Copy)]
pub(crate) struct Places<'a> {
    pub(crate) key: &'a [u8],
    pub(crate) typed: &'a [u8],
    pub(crate) sets: &'a [u8; 256],
    ghost paired: { length typed.now ≡ length key.now },
    ghost looked_up: { IsTable set_of sets.now } by { table-prop set_of sets.now },
}
