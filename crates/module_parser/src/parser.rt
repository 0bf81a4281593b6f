ghost use Rattle.std.specs.Prelude.{IfOk, IfErr};
ghost use Rattle.sv_base.specs.Faults.{IfRefused};
ghost use Rattle.expr_parser.specs.Spelled.{AreSpelled};
ghost use Rattle.module_parser.specs.Outcome.{IsRead, IsRefused, AreWritten};

use crate::cursor::Cursor;
use crate::module::file;
use expr_parser::ParseFault;
use std::alloc::Global;
use sv_ast::Module;
use sv_lexer::Token;

/// Reads all modules of a file. Where its tokens are none, the first is refused after which no file goes on, or the first
/// at which the open nesting is above `NESTING_LIMIT`.
pub fn parse_file(alloc: Global, tokens: &Vec<Token>) -> Result<Vec<Module>, ParseFault>
    ensures read { IfOk result (λ r. IsRead tokens.now.items r.items) }
    ensures written { IfOk result (λ r. AreSpelled tokens.now.items → AreWritten r.items) }
    ensures refused { IfErr result (IfRefused (IsRefused tokens.now.items)) }
{
    expr_parser::exact_reading();
    expr_parser::nothing_goes_on();
    expr_parser::one_tree();
    expr_parser::one_nesting();
    let mut cursor = Cursor::new(tokens);
    match file(alloc, &mut cursor) {
        Ok(modules) => Ok(modules.into_vec()),
        Err(fault) => Err(fault),
    }
}
