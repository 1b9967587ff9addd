// From bytes to a script.
ghost use Rattle.std.specs.Prelude.{◌≡◌, ◌≢◌, ◌≤◌, IfOk, IfErr, length};
ghost use Rattle.cxl_message.specs.Script.{ScriptValue};
ghost use Rattle.script_text.specs.Failures.{FailsAt};
ghost use Rattle.script_text.specs.Refusals.{IfBad};
ghost use Rattle.script_text.specs.Script.{IsScript};
ghost use Rattle.script_text.specs.Spelling.{script_bytes};

use crate::drafts::Draft;
use crate::head::head_of;
use crate::lines::next_line;
use crate::refusals::{ScriptReason, ScriptRefusal};
use crate::scripts::Script;
use std::alloc::Global;

/// The script that these bytes spell (own rule). There are at most 67,108,864 bytes. They are refused by Bad exactly where
/// they spell none, with the first line that fails, counted from 1, and the first of its reasons; and otherwise only for
/// want of memory.
pub fn parse_script(alloc: Global, bytes: &[u8]) -> Result<Script, ScriptRefusal>
    requires { length bytes.now ≤ 67108864 }
    ensures spelled { IfOk result (λ script. bytes.now ≡ script_bytes script) }
    ensures script { IfOk result IsScript }
    ensures only { IfOk result (λ script. (other : ScriptValue) → IsScript other → bytes.now ≡ script_bytes other → other ≡ script) }
    ensures fails { IfErr result (λ refusal. IfBad refusal (FailsAt bytes.now)) }
    ensures bad { IfErr result (λ refusal. IfBad refusal (λ line reason. (other : ScriptValue) → IsScript other → bytes.now ≢ script_bytes other)) }
{
    let (setup, room, text) = match head_of(bytes) {
        Ok(head) => head,
        Err(refusal) => return Err(refusal),
    };
    let mut draft = Draft::new(alloc, setup, room);
    let mut rest = text;
    let mut number = 8;
    while !rest.is_empty() {
        let (line, after) = match next_line(rest) {
            Some(found) => found,
            None => {
                return Err(ScriptRefusal::Bad {
                    line: number,
                    reason: ScriptReason::Spelling,
                });
            }
        };
        draft.add(alloc, number, &line)?;
        rest = after;
        number += 1;
    }
    Ok(Script::new(draft))
}
