//! Reports: which function asks for which.
ghost use Rattle.std.specs.Prelude.{◌≡◌, ◌==◌, Some, None, if◌then◌else◌};
ghost use Rattle.roam_controls.specs.Reports.{status_report, report_of, private_report, secondary_report};

use crate::parameters::first;

/// The report to answer.
#[derive(Clone, Copy)]
pub enum Report {
    Status,
    CursorPosition,
    Printer,
    PrimaryAttributes,
    SecondaryAttributes,
}

fn status_report(param: u16) -> Option<Report>
    ensures report { result ≡ status_report param }
{
    match param {
        5 => Some(Report::Status),
        6 => Some(Report::CursorPosition),
        _ => None,
    }
}

// Returns the report, if the parameter asks for it.
fn report_at(param: u16, wanted: u16, report: Report) -> Option<Report>
    ensures report { result ≡ (if param == wanted then Some report else None) }
{
    if param == wanted { Some(report) } else { None }
}

/// The report that a control sequence with this final byte asks for.
pub fn report_of(params: &[u16], last: u8) -> Option<Report>
    ensures report { result ≡ report_of params.now last }
{
    match last {
        // DSR
        b'n' => status_report(first(params)),
        // DA
        b'c' => report_at(first(params), 0, Report::PrimaryAttributes),
        _ => None,
    }
}

/// The report that a control sequence with the private marker `?` asks for.
pub fn private_report(params: &[u16], last: u8) -> Option<Report>
    ensures report { result ≡ private_report params.now last }
{
    match last {
        // DSR
        b'n' => report_at(first(params), 15, Report::Printer),
        _ => None,
    }
}

/// The report that a control sequence with the private marker `>` asks for.
pub fn secondary_report(params: &[u16], last: u8) -> Option<Report>
    ensures report { result ≡ secondary_report params.now last }
{
    match last {
        // DA
        b'c' => report_at(first(params), 0, Report::SecondaryAttributes),
        _ => None,
    }
}
