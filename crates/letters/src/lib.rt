// The letters that bases are written with: the partner of each in the complement, and the set of bases that it stands for.
//
// A set has four bits: A is 1, C is 2, G is 4, T is 8; U counts as T. The entry of byte b is at place b of a table, and is 0 if the byte
// is no letter. A line below has 16 entries: the upper case letters are in the lines of '@' and 'P', the lower case letters in those two
// lines further on.
//
// A function gives a table as a value, so that a loop can read a copy made before it: a constant would be built anew at each read.
#![tactic(auto)]

ghost use Rattle.letters.specs.Letters.{partner, set_of};
ghost use Rattle.letters.specs.Table.{IsTable};

const PARTNERS: [u8; 256] = *b"\
    \0\0\0\0\0\0\0\0\0\0\0\0\0\0\0\0\
    \0\0\0\0\0\0\0\0\0\0\0\0\0\0\0\0\
    \0\0\0\0\0\0\0\0\0\0\0\0\0\0\0\0\
    \0\0\0\0\0\0\0\0\0\0\0\0\0\0\0\0\
    \0TVGH\0\0CD\0\0M\0KN\0\
    \0\0YSAABW\0R\0\0\0\0\0\0\
    \0tvgh\0\0cd\0\0m\0kn\0\
    \0\0ysaabw\0r\0\0\0\0\0\0\
    \0\0\0\0\0\0\0\0\0\0\0\0\0\0\0\0\
    \0\0\0\0\0\0\0\0\0\0\0\0\0\0\0\0\
    \0\0\0\0\0\0\0\0\0\0\0\0\0\0\0\0\
    \0\0\0\0\0\0\0\0\0\0\0\0\0\0\0\0\
    \0\0\0\0\0\0\0\0\0\0\0\0\0\0\0\0\
    \0\0\0\0\0\0\0\0\0\0\0\0\0\0\0\0\
    \0\0\0\0\0\0\0\0\0\0\0\0\0\0\0\0\
    \0\0\0\0\0\0\0\0\0\0\0\0\0\0\0\0";

const SETS: [u8; 256] = *b"\
    \0\0\0\0\0\0\0\0\0\0\0\0\0\0\0\0\
    \0\0\0\0\0\0\0\0\0\0\0\0\0\0\0\0\
    \0\0\0\0\0\0\0\0\0\0\0\0\0\0\0\0\
    \0\0\0\0\0\0\0\0\0\0\0\0\0\0\0\0\
    \0\x01\x0E\x02\x0D\0\0\x04\x0B\0\0\x0C\0\x03\x0F\0\
    \0\0\x05\x06\x08\x08\x07\x09\0\x0A\0\0\0\0\0\0\
    \0\x01\x0e\x02\x0d\0\0\x04\x0b\0\0\x0c\0\x03\x0f\0\
    \0\0\x05\x06\x08\x08\x07\x09\0\x0a\0\0\0\0\0\0\
    \0\0\0\0\0\0\0\0\0\0\0\0\0\0\0\0\
    \0\0\0\0\0\0\0\0\0\0\0\0\0\0\0\0\
    \0\0\0\0\0\0\0\0\0\0\0\0\0\0\0\0\
    \0\0\0\0\0\0\0\0\0\0\0\0\0\0\0\0\
    \0\0\0\0\0\0\0\0\0\0\0\0\0\0\0\0\
    \0\0\0\0\0\0\0\0\0\0\0\0\0\0\0\0\
    \0\0\0\0\0\0\0\0\0\0\0\0\0\0\0\0\
    \0\0\0\0\0\0\0\0\0\0\0\0\0\0\0\0\
";

// The complement of each byte.
pub fn partners() -> [u8; 256]
    ensures { IsTable partner result }
{
    PARTNERS
}

// The set of each byte.
pub fn sets() -> [u8; 256]
    ensures { IsTable set_of result }
{
    SETS
}
