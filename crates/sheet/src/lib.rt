// Reading a sheet (document 01, "The sheet" and "Kinds and meanings"): refusals 1 to 9.
#![tactic(auto)]

ghost use Rattle.std.specs.Prelude.{◌≡◌};
ghost use Rattle.sheet_rules.specs.Reading.{reading};
ghost use Rattle.sheet.specs.Answers.{answer_of};

use bytes::{after, byte};
use judge::judge_blocks;
use refusal::Refusal;
use sheet_rules::Layout;

pub mod bytes; // bytes.rt: bytes and lengths of a sheet
mod declarations; // declarations.rt: the readers of sorts, variables and relations
mod nodes; // nodes.rt: the reader of nodes: kinds and fields
mod tables; // tables.rt: what every node has, from the nodes before it
mod judge; // judge.rt: numbers 2 to 9 over the four blocks

// Refused by the first number that applies, else accepted. Each block goes to its reader as the part of the sheet where
// it stands.
pub fn read(sheet: &[u8]) -> Result<Layout, Refusal>
    ensures { answer_of result ≡ reading sheet.now }
{
    if byte(sheet, 0) != 1 {
        return Err(Refusal::Version);
    }
    let variables_head = after(sheet, 1);
    let relations_head = after(sheet, variables_head);
    let nodes_head = after(sheet, relations_head);
    let end = after(sheet, nodes_head);
    if end != sheet.len() {
        return Err(Refusal::Length);
    }
    let variables_start = variables_head + 2;
    let relations_start = relations_head + 2;
    let nodes_start = nodes_head + 2;
    judge_blocks(
        &sheet[3..variables_head],
        &sheet[variables_start..relations_head],
        &sheet[relations_start..nodes_head],
        &sheet[nodes_start..end],
    )
}
