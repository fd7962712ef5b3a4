// The two routines of `marginlilac` under their names for C, in an archive.
#![tactic(auto)]

ghost use Rattle.marginlilac.specs.Exported.{Exports, lent_bytes, left_bytes};

// The run by the plain engine.
#[unsafe(no_mangle)]
pub extern "C" fn marginlilac_run(
    identifiers: &[u8],
    parents: &[u8],
    shares: &[u8],
    classes: &[u8],
    lengths: &[u8],
    order: &mut [u8],
    report: &mut [u8],
    lags: &mut [u8],
    working: &mut [u8],
    answer: &mut [u8],
) -> u32
    ensures { Exports
        (lent_bytes identifiers.now parents.now shares.now classes.now lengths.now
        order.old report.old lags.old working.old answer.old)
        (left_bytes result order.new report.new lags.new working.new answer.new) }
{
    marginlilac::marginlilac_run(
        identifiers,
        parents,
        shares,
        classes,
        lengths,
        order,
        report,
        lags,
        working,
        answer,
    )
}

// The run by the quicker engine.
#[unsafe(no_mangle)]
pub extern "C" fn marginlilac_run_heaps(
    identifiers: &[u8],
    parents: &[u8],
    shares: &[u8],
    classes: &[u8],
    lengths: &[u8],
    order: &mut [u8],
    report: &mut [u8],
    lags: &mut [u8],
    working: &mut [u8],
    answer: &mut [u8],
) -> u32
    ensures { Exports
        (lent_bytes identifiers.now parents.now shares.now classes.now lengths.now
        order.old report.old lags.old working.old answer.old)
        (left_bytes result order.new report.new lags.new working.new answer.new) }
{
    marginlilac::marginlilac_run_heaps(
        identifiers,
        parents,
        shares,
        classes,
        lengths,
        order,
        report,
        lags,
        working,
        answer,
    )
}
