// The complement of a sequence of bases, and its reverse complement, into a lent output.
//
// A call is refused, in this order, for an input over the size limit (1), an output that is shorter than the input (14), and a
// byte that has no complement (24, with its place and the byte): the first such byte, in the reverse complement the last. A
// refusal leaves the output as it was. Else the output begins with the answer; bytes behind it stay.
//
// So all bytes are judged first, and then written. A base's complement is one look into a table. Where many bases stand together the
// compiler does 16 and more at once, without a look for each: of a plain sequence (A, C, G, T and N alone, in either case, as most are)
// by a few bit operations a base, of any other by flipping the bits in which its pair differs, which are looked up once, before the
// loop. All write the same `partner`, and both kinds are judged by bits, since a look a base would cost more. No loop has a branch
// in it: the kind and the order are types.
#![tactic(auto)]

ghost use Rattle.std.specs.Prelude.{◌≡◌, Bool, true, false, cond, map, ◌-◌, ◌≤◌, ◌<◌, length};
ghost use Rattle.refusal.specs.declared.Refusal.TheVariants.{NoRoom, NoComplement};
ghost use Rattle.output.specs.Outcome.{leaves};
ghost use Rattle.letters.specs.Letters.{partner};
ghost use Rattle.letters.specs.Table.{IsTable};
ghost use Rattle.complement.specs.Complement.{given, complement_of, reverse_complement_of, poured, complement_written};
ghost use Rattle.complement.specs.Kinds.{is_of, all_of, in_order, judged_of, answer_of, output_of};
ghost use Rattle.complement.specs.Flips.{flip, is_table-prop, AreFlips};

use refusal::Refusal;

// How many bytes are judged at once.
const BLOCK: usize = 4096;

// From how many bytes on they are judged at two places in turns, and how many of them in a turn: less than a page of memory, so that
// both places are asked for before either is there.
const MANY: usize = 4194304;

const TURN: usize = 512;

// A kind of bases: which bytes are of it, and how each of them is complemented.
trait Kind {
    ghost plain: { Bool };

    // Is a byte of the kind.
    fn has(b: u8) -> bool
        ensures { result ≡ is_of plain b };

    // The complement of a base of the kind.
    fn partner(flips: Flips, b: u8) -> u8
        requires { is_of plain b ≡ true }
        ensures { result ≡ partner b };

    // How many of so many bases are looked up one by one.
    fn singles(bases: usize) -> usize
        ensures { result ≤ bases };
}

// The plain bases: A, C, G, T and N, in either case.
struct Plain;

impl Kind for Plain {
    ghost plain = { true };

    fn has(b: u8) -> bool {
        let low = b | 32;
        (low | 4 == b'g') | (low == b'a') | (low == b't') | (low == b'n')
    }

    // A and T differ in 21, C and G in 4. Of the plain bases A and T alone lack the bit 2, and N alone has the bit 8.
    fn partner(_flips: Flips, b: u8) -> u8 {
        b ^ 21 ^ ((b / 2) & 5) ^ ((b & 2) * 8)
    }

    fn singles(_bases: usize) -> usize {
        0
    }
}

// All bases that have a complement. The letters that have none are E, F, I, J, L, O, P, Q, X and Z.
struct Paired;

impl Kind for Paired {
    ghost plain = { false };

    fn has(b: u8) -> bool {
        let low = b | 32;
        ((b'a' <= low) & (low <= b'd'))
            | ((b'g' <= low) & (low <= b'h'))
            | (low == b'k')
            | ((b'm' <= low) & (low <= b'n'))
            | ((b'r' <= low) & (low <= b'w'))
            | (low == b'y')
    }

    // The pair of a base is found, and the bits of the pair are flipped. One test finds C and G, which differ in one bit; so K and M with I and O,
    // and D and H with L, which have no complement. At most one pair is found, so their bits are added, for which the compiler makes the best code.
    fn partner(flips: Flips, b: u8) -> u8 {
        let low = b | 32;
        let at = bits_if((low == b'a') | (low == b't'), flips.at);
        let cg = bits_if(low | 4 == b'g', flips.cg);
        let km = bits_if(low | 6 == b'o', flips.km);
        let ry = bits_if((low == b'r') | (low == b'y'), flips.ry);
        let dh = bits_if(low | 12 == b'l', flips.dh);
        let bv = bits_if((low == b'b') | (low == b'v') | (low == b'u'), flips.bv);
        b ^ (at + cg + km + ry + dh + bv)
    }

    // Those behind the last 32 that are done together. Of 100 bases, 4.
    fn singles(bases: usize) -> usize {
        bases % 32
    }
}

// The order in which bases are complemented.
trait Order {
    ghost reversed: { Bool };

    // The place of the next of so many bases, behind some others.
    fn place(bases: usize, others: usize) -> usize
        requires { others < bases }
        ensures { result ≡ cond reversed (bases - 1 - others) others };
}

// From the first to the last.
struct Forward;

impl Order for Forward {
    ghost reversed = { false };

    fn place(_bases: usize, others: usize) -> usize {
        others
    }
}

// From the last to the first.
struct Backward;

impl Order for Backward {
    ghost reversed = { true };

    fn place(bases: usize, others: usize) -> usize {
        bases - 1 - others
    }
}

// Are all bytes of a block of the kind. The loop tests all of them, without an early exit, so that the compiler tests many at once.
fn block_of<K: Kind>(bases: &[u8]) -> bool
    ensures { result ≡ all_of K.plain bases.now }
{
    let mut other: u8 = 0;
    for &b in bases {
        other |= !K::has(b) as u8;
    }
    other == 0
}

// Are all bytes of a run of the kind. They are judged by blocks, and the first block that has another byte ends it.
fn run_of<K: Kind>(bases: &[u8]) -> bool
    ensures { result ≡ all_of K.plain bases.now }
{
    for block in bases.chunks(BLOCK) {
        if !block_of::<K>(block) {
            return false;
        }
    }
    true
}

// Are all bytes of two runs of one length of the kind. A block of each is judged in turns, so that the memory is asked at two places.
fn both_of<K: Kind>(a: &[u8], b: &[u8]) -> bool
    requires { length a.now ≡ length b.now }
    ensures { result ≡ cond (all_of K.plain a.now) (all_of K.plain b.now) false }
{
    for (x, y) in a.chunks(TURN).zip(b.chunks(TURN)) {
        if !block_of::<K>(x) {
            return false;
        }
        if !block_of::<K>(y) {
            return false;
        }
    }
    true
}

// Are all bytes of the kind. Of many, which come from memory, both halves are judged side by side, and then the last byte where it is left over.
fn all_of<K: Kind>(bases: &[u8]) -> bool
    ensures { result ≡ all_of K.plain bases.now }
{
    if bases.len() < MANY {
        return run_of::<K>(bases);
    }
    let (front, rest) = bases.split_at(bases.len() / 2);
    let (back, last) = rest.split_at(front.len());
    both_of::<K>(front, back) && block_of::<K>(last)
}

// The complement of any byte: a table of them.
#[derive(Clone, Copy)]
struct Partners {
    table: [u8; 256],
    ghost is_table: { IsTable partner table } by { is_table-prop table },
}

// The bits in which the two letters of a pair differ: of A and T 21, of C and G 4, of K and M 6, of R and Y 11, of D and H 12, of B and V
// 20, as of U and A. W, S and N are their own partners.
#[derive(Clone, Copy)]
struct Flips {
    at: u8,
    cg: u8,
    km: u8,
    ry: u8,
    dh: u8,
    bv: u8,
    ghost are_flips: { AreFlips at cg km ry dh bv },
}

impl Partners {
    fn new() -> Self {
        Partners {
            table: letters::partners(),
        }
    }

    // The complement of a byte: one look.
    fn of(&self, b: u8) -> u8
        ensures { result ≡ partner b }
    {
        self.table[b as usize]
    }

    // The bits in which a byte and its partner differ.
    #[tactic(auto, unfolding(crate::specs::Flips::flip))]
    fn flip(&self, b: u8) -> u8
        ensures { result ≡ flip b }
    {
        self.of(b) ^ b
    }

    // Those of each pair.
    fn flips(&self) -> Flips {
        Flips {
            at: self.flip(b'a'),
            cg: self.flip(b'c'),
            km: self.flip(b'k'),
            ry: self.flip(b'r'),
            dh: self.flip(b'd'),
            bv: self.flip(b'b'),
        }
    }
}

// Some bits where a test holds, else none.
fn bits_if(test: bool, bits: u8) -> u8
    ensures { (result ≡ cond test bits 0) × (result ≤ bits) }
{
    if test { bits } else { 0 }
}

// The refusal of an output that is shorter than its answer.
fn no_room(needed: usize) -> Result<usize, Refusal>
    ensures { result ≡ Err (NoRoom needed) }
{
    Err(Refusal::NoRoom {
        needed: needed as u64,
    })
}

// The refusal of a byte at a place.
fn no_complement(place: usize, byte: u8) -> Result<usize, Refusal>
    ensures { result ≡ Err (NoComplement place byte) }
{
    Err(Refusal::NoComplement {
        place: place as u64,
        byte: byte as u64,
    })
}

// The answer for the bytes: all of them, or the refusal of the first in this order that has no complement.
fn first_fault<O: Order>(bases: &[u8]) -> Result<usize, Refusal>
    ensures { result ≡ answer_of (judged_of O.reversed bases.now) }
{
    for i in 0..bases.len() {
        let place = O::place(bases.len(), i);
        let b = bases[place];
        if !Paired::has(b) {
            return no_complement(place, b);
        }
    }
    Ok(bases.len())
}

// Writes the complements of the bases in this order.
fn write<K: Kind, O: Order>(bases: &[u8], out: &mut [u8])
    requires { (length bases.now ≤ length out.old) × (all_of K.plain bases.now ≡ true) }
    ensures { out.new ≡ output_of (given (in_order O.reversed (map partner bases.now))) out.old }
{
    let partners = Partners::new();
    let flips = partners.flips();
    let wide = bases.len() - K::singles(bases.len());
    for i in 0..wide {
        out[i] = K::partner(flips, bases[O::place(bases.len(), i)]);
    }
    for i in wide..bases.len() {
        out[i] = partners.of(bases[O::place(bases.len(), i)]);
    }
}

// Writes all complements, and answers how many.
fn write_all<K: Kind, O: Order>(bases: &[u8], out: &mut [u8]) -> Result<usize, Refusal>
    requires { (length bases.now ≤ length out.old) × (all_of K.plain bases.now ≡ true) }
    ensures { leaves result out.new ≡ poured (judged_of O.reversed bases.now) out.old }
{
    write::<K, O>(bases, out);
    Ok(bases.len())
}

// The complement of the bases in this order. The limit and the room are judged before the bytes.
fn complement_all<O: Order>(bases: &[u8], out: &mut [u8]) -> Result<usize, Refusal>
    ensures { leaves result out.new ≡ complement_written bases.now (judged_of O.reversed bases.now) out.old }
{
    if refusal::over_limit(bases.len()) {
        return Err(Refusal::TooLong);
    }
    if out.len() < bases.len() {
        return no_room(bases.len());
    }
    if all_of::<Plain>(bases) {
        return write_all::<Plain, O>(bases, out);
    }
    if all_of::<Paired>(bases) {
        return write_all::<Paired, O>(bases, out);
    }
    first_fault::<O>(bases)
}

// The complement of the bases.
#[tactic(auto, unfolding(crate::specs::Kinds::judged_of))]
pub fn complement(bases: &[u8], out: &mut [u8]) -> Result<usize, Refusal>
    ensures { leaves result out.new ≡ complement_written bases.now (complement_of bases.now) out.old }
{
    complement_all::<Forward>(bases, out)
}

// The complement of the bases from the last to the first.
#[tactic(auto, unfolding(crate::specs::Kinds::judged_of))]
pub fn reverse_complement(bases: &[u8], out: &mut [u8]) -> Result<usize, Refusal>
    ensures { leaves result out.new ≡ complement_written bases.now (reverse_complement_of bases.now) out.old }
{
    complement_all::<Backward>(bases, out)
}
