//! The limits of a stream that is rewritten.
ghost use Rattle.std.specs.Prelude.{◌≡◌, ◌≤◌, IfSome};
ghost use Rattle.ipc_model.specs.Limits.{Covers, IsStandard};
ghost use Rattle.ipc_model.specs.declared.limits.Limits.{Limits};
ghost use Rattle.job_rewrite.specs.RewriteLimits.{at_least_standard, sent_limits};

use crate::options::RewriteOptions;
use ipc_model::{Limits, MAX_BODY};

/// Returns the limits in which each value below the standard one is replaced by the standard one.
/// They cover the given limits and the standard limits.
pub fn at_least_standard(limits: &Limits) -> Limits
    ensures raised { result ≡ at_least_standard limits.now }
    ensures covers { Covers result limits.now }
    ensures standard { (usual : Limits) → IsStandard usual → Covers result usual }
{
    let standard = Limits::standard();
    Limits {
        metadata: limits.metadata.max(standard.metadata),
        body: limits.body.max(standard.body),
        slots: limits.slots.max(standard.slots),
        fields: limits.fields.max(standard.fields),
        depth: limits.depth.max(standard.depth),
        text: limits.text.max(standard.text),
        pairs: limits.pairs.max(standard.pairs),
    }
}

/// Returns the limits of what `rewrite` writes: those of what it reads, each at least the standard
/// one. The limit of a body is that of the options, if they give one.
pub fn sent_limits(limits: &Limits, options: RewriteOptions) -> Limits
    ensures sent { result ≡ sent_limits options limits.now }
    ensures body { IfSome options.max_body (λ most. result.body ≤ most) }
{
    let raised = at_least_standard(limits);
    Limits {
        metadata: raised.metadata,
        body: options.max_body.unwrap_or(raised.body).min(MAX_BODY),
        slots: raised.slots,
        fields: raised.fields,
        depth: raised.depth,
        text: raised.text,
        pairs: raised.pairs,
    }
}
