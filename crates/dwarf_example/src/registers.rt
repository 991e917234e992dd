//! Two loops that answer only requests for registers. One raises the maximum number of operations at each.

ghost use Rattle.std.specs.Prelude.{◌≡◌, ◌↔◌, IfOk, true};
ghost use Rattle.dwarf_expr.specs.Evaluation.{IsClosed, IsComplete};
ghost use Rattle.dwarf_expr.specs.Permits.{IsOpenFor};
ghost use Rattle.dwarf_expr.specs.WaitingKind.TheVariants.{Register};

use dwarf_expr::base::{Reader, Result};
use dwarf_expr::eval::{Evaluation, Status, WaitingKind};
use dwarf_expr::op::EvaluationResult;
use dwarf_expr::store::EvaluationStorage;
use dwarf_expr::value::Value;

/// Evaluates with the values of registers, and at most `step` more operations after each of them. `false` if the
/// expression asks for anything else, or for a register that isn't there; that request stays open.
pub fn complete_with_registers<R: Reader + Copy, S: EvaluationStorage<R>>(
    evaluation: &mut Evaluation<R, S>,
    registers: &[u64],
    step: u32,
) -> Result<bool>
    requires { IsClosed evaluation.old.status }
    ensures { IfOk result (λ complete. (complete ≡ true) ↔ IsComplete evaluation.new.status) }
{
    let mut most = step;
    evaluation.set_max_iterations(most);
    let mut request = evaluation.evaluate()?;
    'requests: while let EvaluationResult::RequiresRegister { register, .. } = request {
        let value = match registers.get(usize::from(register.0)) {
            Some(value) => *value,
            None => break 'requests,
        };
        most = most.saturating_add(step);
        evaluation.set_max_iterations(most);
        request = evaluation.resume_with_register(Value::Generic(value))?;
    }
    Ok(matches!(evaluation.status(), Status::Complete))
}

/// Evaluates with 0 as the value of every register. `false` if the expression asks for anything else; that request stays
/// open.
pub fn complete_with_zeros<R: Reader + Copy, S: EvaluationStorage<R>>(
    evaluation: &mut Evaluation<R, S>,
) -> Result<bool>
    requires { IsClosed evaluation.old.status }
    ensures complete { IfOk result
        (λ complete. (complete ≡ true) ↔ IsComplete evaluation.new.status) }
    ensures registers { IfOk result (λ complete. IsOpenFor Register evaluation.new.status → ⊥) }
{
    evaluation.evaluate()?;
    'requests: while evaluation.is_open_for(WaitingKind::Register) {
        evaluation.resume_with_register(Value::Generic(0))?;
    }
    Ok(matches!(evaluation.status(), Status::Complete))
}
