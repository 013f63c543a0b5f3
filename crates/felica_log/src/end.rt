// The lines behind the last record.
ghost use Rattle.felica_put.specs.Output.{Puts};
ghost use Rattle.felica_log.specs.Listing.{number_field, cut_line, total_line, records_left};
ghost use Rattle.felica_log.specs.Step.{rest_line, end_text};

use crate::MAX_RECORDS;
use felica_put::Output;
use felica_text::put::put_decimal;
use felica_totals::Totals;

// CUT, FULL or nothing, and TOTAL, where `rest` is what is left of the log and `totals` are those of the records before it.
pub fn put_end(out: &mut Output<u8>, rest: &[u8], totals: Totals)
    ensures { Puts out.old out.new (end_text totals rest.now) }
{
    put_rest_line(out, rest, totals);
    put_total_line(out, totals);
}

// Not by `look_ahead`: it also asks for room and for totals, which the end needs not, and does not tell how many bytes lack.
fn put_rest_line(out: &mut Output<u8>, rest: &[u8], totals: Totals)
    ensures { Puts out.old out.new (rest_line (records_left totals) rest.now) }
{
    let [size, behind @ ..] = rest else {
        return;
    };
    if MAX_RECORDS <= totals.records {
        out.put_all(b"FULL\n");
        return;
    }
    let size = usize::from(*size);
    if behind.len() < size {
        put_cut_line(out, size - behind.len());
    }
}

fn put_cut_line(out: &mut Output<u8>, missing: usize)
    ensures { Puts out.old out.new (cut_line missing) }
{
    out.put_all(b"CUT");
    put_number(out, missing);
    out.put(b'\n');
}

fn put_total_line(out: &mut Output<u8>, totals: Totals)
    ensures { Puts out.old out.new (total_line totals) }
{
    out.put_all(b"TOTAL");
    put_number(out, totals.records);
    put_number(out, totals.accepted);
    put_number(out, totals.refused);
    put_number(out, totals.blocks);
    out.put(b'\n');
}

// A space and a number.
fn put_number(out: &mut Output<u8>, number: usize)
    ensures { Puts out.old out.new (number_field number) }
{
    out.put(b' ');
    put_decimal(out, number);
}
