//! Which rules an instruction breaks, and which ones the end.

ghost use Rattle.std.specs.Prelude.{◌≡◌, ◌&&◌, length};
ghost use Rattle.blk_deps.specs.Layout.{row_words, shown, shown_value};
ghost use Rattle.blk_deps.specs.Rules.{breaks_by_access, breaks_at_line, breaks_at_end, used_at_line, used_at_end};
ghost use Rattle.blk_deps.specs.Reaching.{IsAtLine};
ghost use Rattle.blk_deps.specs.Scenes.{IsScene, IsAbout, ShowsUsed};
ghost use Rattle.blk_deps.specs.declared.fact.Fact.TheVariants.{Here};

use super::accesses::breaks_by_access;
use super::ends::breaks_by_end;
use super::uses::breaks_by_use;
use super::{AtLine, Scene, Uses};
use crate::Violation;

/// Whether an access of the instruction breaks the rule, and some path comes here.
fn breaks_on_path(scene: &Scene, at: &AtLine, violation: &Violation) -> bool
    requires scene { IsScene scene.now }
    requires line { IsAtLine at.now }
    requires operands { IsAbout (length scene.now.context.now.interface.now.operands) violation.now }
    ensures { result ≡ (breaks_by_access scene.now.context.now.interface.now scene.now.context.now.live.now
        at.now.depth at.now.line.now violation.now.rule violation.now.cell && at.now.here) }
{
    breaks_by_access(scene.context, at, violation.rule, violation.cell) && at.here
}

/// Whether the instruction breaks the rule by the facts before it, which the row shows, where what it uses has this.
pub fn breaks_at_line(
    scene: &Scene,
    at: &AtLine,
    row: &[u64],
    used: &Uses,
    violation: &Violation,
) -> bool
    requires scene { IsScene scene.now }
    requires line { IsAtLine at.now }
    requires operands { IsAbout (length scene.now.context.now.interface.now.operands) violation.now }
    requires here { at.now.here ≡ shown scene.now.layout.now row.now Here }
    requires layout { used.now.layout ≡ scene.now.layout.now }
    requires used { ShowsUsed used.now.layout used.now.words.now
        (used_at_line scene.now.context.now.interface.now scene.now.context.now.shape.now at.now.depth
        at.now.line.now (shown scene.now.layout.now row.now)) }
    ensures { result ≡ breaks_at_line scene.now.context.now.interface.now scene.now.context.now.live.now
        scene.now.context.now.shape.now at.now.depth at.now.line.now violation.now
        (shown scene.now.layout.now row.now) }
{
    breaks_on_path(scene, at, violation) || breaks_by_use(scene, used, violation)
}

/// Whether the end breaks the rule by the facts there, which the row shows, where what is used has this.
pub fn breaks_at_end(scene: &Scene, row: &[u64], used: &Uses, violation: &Violation) -> bool
    requires scene { IsScene scene.now }
    requires row { length row.now ≡ row_words scene.now.layout.now }
    requires operands { IsAbout (length scene.now.context.now.interface.now.operands) violation.now }
    requires layout { used.now.layout ≡ scene.now.layout.now }
    requires used { ShowsUsed used.now.layout used.now.words.now
        (used_at_end scene.now.context.now.interface.now scene.now.context.now.shape.now
        (shown scene.now.layout.now row.now)) }
    ensures { result ≡ breaks_at_end scene.now.context.now.interface.now scene.now.context.now.shape.now
        violation.now (shown scene.now.layout.now row.now) }
{
    breaks_by_end(scene, row, violation.rule, violation.cell)
        || breaks_by_use(scene, used, violation)
}
