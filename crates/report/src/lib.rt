// The text that the program prints, put into a buffer that is lent: no call allocates.
#![tactic(auto)]

ghost use Rattle.std.specs.Prelude.{◌≡◌, ◌+◌, ◌*◌, ◌≤◌, length};
ghost use Rattle.text.specs.Text.{Put};
ghost use Rattle.text.specs.Writer.{Adds, Room};
ghost use Rattle.report.specs.Report.{spaced, cell_line, cell_lines, totals_text, columns_text, ledger_text, report_text, refused_text};

use reach::ledger::{Ledger, Totals};
use text::Writer;

fn put_spaced(to: &mut Writer, n: u64)
    requires { Room to.old 21 }
    ensures most { to.new.at ≤ to.old.at + 21 }
    ensures adds { Adds to.old (spaced n) to.new }
{
    to.byte(b' ');
    to.decimal(n);
}

fn put_cell(to: &mut Writer, i: u64, h: u64, q: i64, m: u64)
    requires { Room to.old 96 }
    ensures most { to.new.at ≤ to.old.at + 96 }
    ensures adds { Adds to.old (cell_line i h q m) to.new }
{
    to.decimal(i);
    put_spaced(to, h);
    to.byte(b' ');
    to.signed(q);
    put_spaced(to, m);
    to.byte(b'\n');
}

fn put_cells(to: &mut Writer, depth: &[u64], discharge: &[i64], mass: &[u64])
    requires discharge_len { (length discharge.now ≡ length depth.now) × (length mass.now ≡ length depth.now) }
    requires room { Room to.old (96 * length depth.now) }
    ensures most { to.new.at ≤ to.old.at + 96 * length depth.now }
    ensures adds { Adds to.old (cell_lines depth.now discharge.now mass.now (length depth.now)) to.new }
{
    for i in 0..depth.len() {
        put_cell(to, i as u64, depth[i], discharge[i], mass[i]);
    }
}

fn put_totals(to: &mut Writer, t: Totals)
    requires { Room to.old 84 }
    ensures most { to.new.at ≤ to.old.at + 84 }
    ensures adds { Adds to.old (totals_text t) to.new }
{
    put_spaced(to, t.water_in);
    put_spaced(to, t.water_out);
    put_spaced(to, t.mass_in);
    put_spaced(to, t.mass_out);
}

// `cells n` and a line per cell
fn put_columns(to: &mut Writer, depth: &[u64], discharge: &[i64], mass: &[u64])
    requires discharge_len { (length discharge.now ≡ length depth.now) × (length mass.now ≡ length depth.now) }
    requires room { Room to.old (96 * length depth.now + 27) }
    ensures most { to.new.at ≤ to.old.at + 96 * length depth.now + 27 }
    ensures adds { Adds to.old (columns_text depth.now discharge.now mass.now) to.new }
{
    to.word(b"cells ");
    to.decimal(depth.len() as u64);
    to.byte(b'\n');
    put_cells(to, depth, discharge, mass);
}

// `book` and the eight totals
fn put_ledger(to: &mut Writer, k: Ledger)
    requires { Room to.old 173 }
    ensures most { to.new.at ≤ to.old.at + 173 }
    ensures adds { Adds to.old (ledger_text k) to.new }
{
    to.word(b"book");
    put_totals(to, k.left);
    put_totals(to, k.right);
    to.byte(b'\n');
}

pub fn put_report(
    out: &mut [u8],
    depth: &[u64],
    discharge: &[i64],
    mass: &[u64],
    k: Ledger,
) -> usize
    requires discharge_len { (length discharge.now ≡ length depth.now) × (length mass.now ≡ length depth.now) }
    requires depth_in_bounds { 96 * length depth.now + 256 ≤ length out.old }
    ensures value { (result ≡ length (report_text depth.now discharge.now mass.now k)) × (result ≤ 96 * length depth.now + 256) }
    ensures put { Put out.old 0 (report_text depth.now discharge.now mass.now k) out.new }
{
    let mut to = Writer::new(out);
    put_columns(&mut to, depth, discharge, mass);
    put_ledger(&mut to, k);
    to.at
}

pub fn put_refused(out: &mut [u8], n: u32) -> usize
    requires { 64 ≤ length out.old }
    ensures value { (result ≡ length (refused_text n)) × (result ≤ 64) }
    ensures put { Put out.old 0 (refused_text n) out.new }
{
    let mut to = Writer::new(out);
    to.word(b"refused ");
    to.decimal(u64::from(n));
    to.byte(b'\n');
    to.at
}
