// Demand 3 at the entry points, looking up and reading as two calls (request K8), just the needed bytes fetched and read (K7), a written record
// read back (K3), a written exercise scored (K5), a file that arrives in pieces (K1), and a file in parts on several cores. The theorems are in
// specs/AtTheEdge.antt, LookUp.antt, Fetching.antt, Writing.antt, Scoring.antt, Fed.antt, Parted.antt, PartedReads.antt and PartedChecks.antt, over the calls' promises as relations (specs/Calls.antt). Here each call is made, and has its relation for a contract: so the
// theorems are about the calls themselves.
#![tactic(auto)]

ghost use Rattle.fitting.specs.declared.Rule.TheVariants.{Strict, Complete};
ghost use Rattle.demands.specs.Parted.{IndexPart, CheckPart};
ghost use Rattle.demands.specs.PartedReads.{FastqIndexPart};
ghost use Rattle.demands.specs.PartedChecks.{FastqCheck, FastqCheckPart};
ghost use Rattle.demands.specs.Calls.{Check, ReadIndex, IndexFile, WriteIndexLine, Find, ReadExact, ReadRaw, NeededBytes, ReadWindow, WriteRecord, DefinitionLine, IndexRecord, ReadSequence, WriteExercise, ScoreExercise, FeedStart, FeedPiece, FeedEnd};

use wakeluri::answer::{Answer, DefinitionAnswer, RowAnswer};
use wakeluri::course::ScoreAnswer;
use wakeluri::feeding::Feed;
use wakeluri::window::PartAnswer;
use wakeluri::{cores, course, feeding, files, qualities, rows, scan, text, window, writing};

fn check(file: &[u8], index: &[u8]) -> Answer
    ensures { Check file.now index.now result }
{
    files::wakeluri_check(file, index)
}

fn read_index(index: &[u8], table: &mut [u8]) -> Answer
    ensures { ReadIndex index.now table.old result table.new }
{
    files::wakeluri_read_index(index, table)
}

fn index_file(file: &[u8], table: &mut [u8]) -> Answer
    ensures { IndexFile Strict file.now table.old result table.new }
{
    files::wakeluri_index_file(file, table)
}

fn index_complete(file: &[u8], table: &mut [u8]) -> Answer
    ensures { IndexFile Complete file.now table.old result table.new }
{
    files::wakeluri_index_complete(file, table)
}

fn write_index_line(names: &[u8], table: &[u8], in_use: u64, row: u64, out: &mut [u8]) -> Answer
    ensures { WriteIndexLine names.now table.now in_use row out.old result out.new }
{
    rows::wakeluri_write_index_line(names, table, in_use, row, out)
}

fn find(names: &[u8], table: &[u8], in_use: u64, name: &[u8]) -> Answer
    ensures { Find names.now table.now in_use name.now result }
{
    rows::wakeluri_find(names, table, in_use, name)
}

fn read_exact(
    file: &[u8],
    table: &[u8],
    in_use: u64,
    row: u64,
    has_start: u64,
    start: u64,
    has_end: u64,
    end: u64,
    out: &mut [u8],
) -> Answer
    ensures { ReadExact file.now table.now in_use row has_start start has_end end out.old result out.new }
{
    rows::wakeluri_read_exact(
        file, table, in_use, row, has_start, start, has_end, end, out,
    )
}

fn read_raw(
    file: &[u8],
    table: &[u8],
    in_use: u64,
    row: u64,
    has_start: u64,
    start: u64,
    has_end: u64,
    end: u64,
    out: &mut [u8],
) -> Answer
    ensures { ReadRaw file.now table.now in_use row has_start start has_end end out.old result out.new }
{
    rows::wakeluri_read_raw(
        file, table, in_use, row, has_start, start, has_end, end, out,
    )
}

fn needed_bytes(
    length: u64,
    room: u64,
    table: &[u8],
    in_use: u64,
    row: u64,
    has_start: u64,
    start: u64,
    has_end: u64,
    end: u64,
) -> PartAnswer
    ensures { NeededBytes length room table.now in_use row has_start start has_end end result }
{
    window::wakeluri_needed_bytes(
        length, room, table, in_use, row, has_start, start, has_end, end,
    )
}

fn read_window(
    length: u64,
    window: &[u8],
    from: u64,
    table: &[u8],
    in_use: u64,
    row: u64,
    has_start: u64,
    start: u64,
    has_end: u64,
    end: u64,
    out: &mut [u8],
) -> Answer
    ensures { ReadWindow length window.now from table.now in_use row has_start start has_end end out.old result out.new }
{
    window::wakeluri_read_window(
        length, window, from, table, in_use, row, has_start, start, has_end, end, out,
    )
}

fn write_record(
    name: &[u8],
    has_description: u64,
    description: &[u8],
    bases: &[u8],
    width: u64,
    out: &mut [u8],
) -> Answer
    ensures { WriteRecord name.now has_description description.now bases.now width out.old result out.new }
{
    writing::wakeluri_write_record(name, has_description, description, bases, width, out)
}

fn definition_line(line: &[u8]) -> DefinitionAnswer
    ensures { DefinitionLine line.now result }
{
    text::wakeluri_definition_line(line)
}

fn index_record(file: &[u8], at: u64) -> RowAnswer
    ensures { IndexRecord file.now at result }
{
    files::wakeluri_index_record(file, at)
}

fn read_sequence(file: &[u8], at: u64, out: &mut [u8]) -> Answer
    ensures { ReadSequence file.now at out.old result out.new }
{
    scan::wakeluri_read_sequence(file, at, out)
}

fn write_exercise(name: &[u8], start: u64, end: u64, edition: u64, out: &mut [u8]) -> Answer
    ensures { WriteExercise name.now start end edition out.old result out.new }
{
    course::wakeluri_write_exercise(name, start, end, edition, out)
}

fn score_exercise(
    exercise: &[u8],
    typed: &[u8],
    file: &[u8],
    names: &[u8],
    table: &[u8],
    in_use: u64,
    room: &mut [u8],
) -> ScoreAnswer
    ensures { ScoreExercise exercise.now typed.now file.now names.now table.now in_use room.old result room.new }
{
    course::wakeluri_score_exercise(exercise, typed, file, names, table, in_use, room)
}

fn feed_start(complete: u64) -> Feed
    ensures { FeedStart complete result }
{
    feeding::wakeluri_feed_start(complete)
}

fn feed_piece(feed: Feed, piece: &[u8], table: &mut [u8]) -> Feed
    ensures { FeedPiece feed piece.now table.old result table.new }
{
    feeding::wakeluri_feed_piece(feed, piece, table)
}

fn feed_end(feed: Feed, table: &mut [u8]) -> Feed
    ensures { FeedEnd feed table.old result table.new }
{
    feeding::wakeluri_feed_end(feed, table)
}

fn index_part(file: &[u8], from: u64, to: u64, complete: u64, table: &mut [u8]) -> Answer
    ensures { IndexPart file.now from to complete table.old result table.new }
{
    cores::wakeluri_index_part(file, from, to, complete, table)
}

fn check_part(fasta: &[u8], from: u64, to: u64, index: &[u8], first: u64, last: u64) -> Answer
    ensures { CheckPart fasta.now from to index.now first last result }
{
    cores::wakeluri_check_part(fasta, from, to, index, first, last)
}

fn fastq_index_part(file: &[u8], from: u64, to: u64, table: &mut [u8]) -> Answer
    ensures { FastqIndexPart file.now from to table.old result table.new }
{
    qualities::wakeluri_fastq_index_part(file, from, to, table)
}

fn fastq_check(fastq: &[u8], index: &[u8]) -> Answer
    ensures { FastqCheck fastq.now index.now result }
{
    qualities::wakeluri_fastq_check(fastq, index)
}

fn fastq_check_part(fastq: &[u8], from: u64, to: u64, index: &[u8], first: u64) -> Answer
    ensures { FastqCheckPart fastq.now from to index.now first result }
{
    qualities::wakeluri_fastq_check_part(fastq, from, to, index, first)
}
