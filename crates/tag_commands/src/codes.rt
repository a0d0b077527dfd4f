//! The command `codes`: the rows of a table of content codes, a line each.

ghost use Rattle.std.specs.Prelude.{◌≡◌, ◌++◌, IfOk, OnOk};
ghost use Rattle.code_table.specs.Standard.{standard_rows};
ghost use Rattle.command_core.specs.Seen.{Around, InputSeen, output_of, run_over_streams};
ghost use Rattle.command_core.specs.Endings.{IsAnswered};
ghost use Rattle.tag_commands.specs.Codes.{code_line, code_lines, codes_meaning};

use code_table::{CodeRow, CodeTable};
use command_core::{Outcome, out_of_memory, write_output};
use dmap_show::show_code;
use fault_lines::push_number;
use outside_net::Sink;
use std::alloc::{AllocError, Global};

/// Runs `codes`: writes the lines of the standard table. It reads nothing.
pub fn list_codes<W: Sink>(alloc: Global, output: &mut W) -> Outcome
    ensures { (around : Around) (input : InputSeen) → IsAnswered codes_meaning
        (run_over_streams around input input
        (output_of W.Sink output.old)
        (output_of W.Sink output.new))
        result }
{
    match standard_lines(alloc) {
        Ok(lines) => write_output(output, lines.as_slice(), None),
        Err(AllocError) => out_of_memory(output, None),
    }
}

/// Returns the lines of the standard table.
fn standard_lines(alloc: Global) -> Result<Vec<u8>, AllocError>
    ensures { IfOk result (λ lines. lines.items ≡ code_lines standard_rows) }
{
    let table = CodeTable::standard(alloc)?;
    lines_of(alloc, &table)
}

/// Returns the lines of a table. A name is written as it is, whatever characters it has.
pub fn lines_of(alloc: Global, table: &CodeTable) -> Result<Vec<u8>, AllocError>
    ensures { IfOk result (λ lines. lines.items ≡ code_lines table.now) }
{
    let mut lines = Vec::new(alloc);
    for row in table.rows() {
        push_row(&mut lines, row)?;
    }
    Ok(lines)
}

fn push_row(lines: &mut Vec<u8>, row: &CodeRow) -> Result<(), AllocError>
    ensures { OnOk result (lines.new.items ≡ lines.old.items ++ code_line row.now) }
{
    show_code(row.code, lines)?;
    push_number(lines, b" ", u64::from(row.kind.number().unwrap_or(0)))?;
    lines.push(b' ')?;
    lines.extend_from_slice(row.name.as_str().as_bytes())?;
    lines.push(b'\n')?;
    Ok(())
}
