//! The statements that waited for a token, told to the matcher.
ghost use Rattle.std.specs.Prelude.{OnOk};
ghost use Rattle.projector.specs.Signing.{HearsOf};

use buf_tree::Ahead;
use gcx_base::Memory;
use matcher::Matcher;

/// Tells the matcher of these statements, in order.
#[inline(always)]
pub(crate) fn sign_all(matcher: &mut Matcher, waiting: &[Ahead]) -> Result<(), Memory>
    ensures { OnOk result (HearsOf matcher.old matcher.new waiting.now) }
{
    for ahead in waiting {
        matcher.sign(ahead.level, &ahead.off)?;
    }
    Ok(())
}
