// The square root and the norm of a list, for C. Each function calls
// the library's of the same name, and promises what that does.
ghost use Rattle.norm.specs.SquareRoot.{Root};
ghost use Rattle.norm.specs.Norm.{Norm};

#[unsafe(no_mangle)]
pub extern "C" fn square_root(x: f64) -> f64
    ensures { Root x result }
{
    norm::square_root(x)
}

#[unsafe(no_mangle)]
pub extern "C" fn compute_residual_norm(residual: &[f64]) -> f64
    ensures { Norm residual.now result }
{
    norm::compute_residual_norm(residual)
}
