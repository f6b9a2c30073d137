// A journal begun anew.
ghost use Rattle.std.specs.Prelude.{◌≡◌, ◌≤◌, ◌+◌, ◌*◌, ◌/◌, ◌^◌};

use file_base::Span;

/// Begins an empty journal at the next multiple of 512 behind its end, so that no position comes again.
pub fn renew(span: &mut Span)
    requires { span.old.end ≤ 2 ^ 62 }
    ensures { span.new ≡ record span.old { first = 512 * (span.old.end / 512 + 1); end = 512 * (span.old.end / 512 + 1) } }
{
    let next = 512 * (span.end / 512 + 1);
    span.first = next;
    span.end = next;
}
