// The lines of the finder.
ghost use Rattle.std.specs.Prelude.{◌≡◌, suc, ◌+◌, ◌≤◌, ◌<◌, length};
ghost use Rattle.text.specs.Puts.{Put};
ghost use Rattle.sheet_rules.specs.Blocks.{sheet_of};
ghost use Rattle.sheet_rules.specs.Blocks as blocks;
ghost use Rattle.relational.specs.Cells.{most_cells};
ghost use Rattle.report.specs.Printed.{cell_digit, relation_lines, member_line, member_lines, instance_lines};
ghost use Rattle.report.specs.Private.{row_from, line_from};

use cells::Sheet;
use sheet::bytes::byte;
use text::put_decimal;

// The cells of a sort or a relation: rows of so many cells, from the first on.
#[derive(Clone, Copy)]
struct Grid<'a> {
    instance: &'a [u8],
    first: usize,
    rows: usize,
    columns: usize,
    ghost small: { (first ≤ most_cells) × ((rows ≤ 8) × (columns ≤ 8)) },
}

// The digit of cell k.
fn cell_digit(instance: &[u8], k: usize) -> u8
    ensures { result ≡ cell_digit (blocks.byte instance.now k) }
{
    if byte(instance, k) == 0 { b'0' } else { b'1' }
}

// Puts a row: a space, and the digit of each cell.
fn put_row(text: &mut [u8], at: usize, instance: &[u8], first: usize, columns: usize) -> usize
    requires columns_in_bounds { at + suc columns ≤ length text.old }
    requires columns_bound { first + columns ≤ 4096 }
    ensures { Put text.old at (row_from instance.now first columns) text.new result }
{
    text[at] = b' ';
    let start = at + 1;
    for j in 0..columns {
        text[start + j] = cell_digit(instance, first + j);
    }
    start + columns
}

// Puts a line: a letter, a number and rows.
fn put_line(text: &mut [u8], at: usize, letter: u8, number: usize, grid: &Grid) -> usize
    requires at_in_bounds { at + 76 ≤ length text.old }
    requires number_bound { number < 16 }
    ensures put { Put text.old at
        (line_from letter grid.now.instance.now number grid.now.first grid.now.rows grid.now.columns) text.new result }
    ensures upper_bound { result ≤ at + 76 }
{
    text[at] = letter;
    let mut end = put_decimal(text, at + 1, number);
    for i in 0..grid.rows {
        end = put_row(
            text,
            end,
            grid.instance,
            grid.first + i * grid.columns,
            grid.columns,
        );
    }
    text[end] = b'\n';
    end + 1
}

// Puts the line of sort k, if it is bounded.
fn put_sort(text: &mut [u8], at: usize, sheet: &Sheet, instance: &[u8], k: usize) -> usize
    requires at_in_bounds { (at + 76 ≤ length text.old) × (k < 8) }
    ensures put { Put text.old at (member_line (sheet_of sheet.now.bytes.now) instance.now k)
        text.new result }
    ensures upper_bound { result ≤ at + 76 }
{
    if sheet.is_bounded(k) {
        let grid = Grid {
            instance,
            first: sheet.first_member(k),
            rows: 1,
            columns: sheet.scope(k),
        };
        return put_line(text, at, b's', k, &grid);
    }
    at
}

// Puts the lines of a sheet's sorts.
fn put_sorts(text: &mut [u8], at: usize, sheet: &Sheet, instance: &[u8]) -> usize
    requires { at + 608 ≤ length text.old }
    ensures put { Put text.old at (member_lines (sheet_of sheet.now.bytes.now) instance.now)
        text.new result }
    ensures upper_bound { result ≤ at + 608 }
{
    let mut end = at;
    for k in 0..sheet.layout.sorts.count {
        end = put_sort(text, end, sheet, instance, k);
    }
    end
}

// Puts the lines of a sheet's relations.
fn put_relations(text: &mut [u8], at: usize, sheet: &Sheet, instance: &[u8]) -> usize
    requires { at + 1216 ≤ length text.old }
    ensures put { Put text.old at (relation_lines (sheet_of sheet.now.bytes.now) instance.now)
        text.new result }
    ensures upper_bound { result ≤ at + 1216 }
{
    let starts = sheet.cells().starts;
    let mut end = at;
    for r in 0..sheet.layout.relations.count {
        let grid = Grid {
            instance,
            first: starts[r],
            rows: sheet.row_count(r),
            columns: sheet.row_length(r),
        };
        end = put_line(text, end, b'r', r, &grid);
    }
    end
}

// Puts the lines of an instance of a sheet.
pub(crate) fn put_lines(text: &mut [u8], at: usize, sheet: &Sheet, instance: &[u8]) -> usize
    requires { at + 1824 ≤ length text.old }
    ensures put { Put text.old at (instance_lines (sheet_of sheet.now.bytes.now) instance.now)
        text.new result }
    ensures upper_bound { result ≤ at + 1824 }
{
    let end = put_sorts(text, at, sheet, instance);
    put_relations(text, end, sheet, instance)
}
