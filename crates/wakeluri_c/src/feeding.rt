// The exports of wakeluri's feeding.rt.
ghost use Rattle.std.specs.Prelude.{◌≡◌};
ghost use Rattle.table.specs.Numbers.{numbers_in};
ghost use Rattle.output.specs.Outcome.{leaves};
ghost use Rattle.feeder.specs.Calls.{begun_by, piece_of, end_of};
ghost use Rattle.wakeluri.specs.Feeding.{rule_by, feeder_by, feed_told, call_told};

use wakeluri::feeding::Feed;

// The start of a file that is indexed as it arrives: by the original's rule for 0, else by the complete one.
#[unsafe(no_mangle)]
pub extern "C" fn wakeluri_feed_start(complete: u64) -> Feed
    ensures { result ≡ feed_told (begun_by (rule_by complete)) }
{
    wakeluri::feeding::wakeluri_feed_start(complete)
}

// The next bytes of the file.
#[unsafe(no_mangle)]
pub extern "C" fn wakeluri_feed_piece(feed: Feed, piece: &[u8], table: &mut [u8]) -> Feed
    ensures { leaves result table.new ≡ call_told (piece_of (feeder_by feed) piece.now (numbers_in table.old)) table.old }
{
    wakeluri::feeding::wakeluri_feed_piece(feed, piece, table)
}

// The end of the file.
#[unsafe(no_mangle)]
pub extern "C" fn wakeluri_feed_end(feed: Feed, table: &mut [u8]) -> Feed
    ensures { leaves result table.new ≡ call_told (end_of (feeder_by feed) (numbers_in table.old)) table.old }
{
    wakeluri::feeding::wakeluri_feed_end(feed, table)
}
