// Whether a table and what is lent to a call will do.
#![tactic(auto)]

ghost use Rattle.std.specs.Prelude.{◌≡◌, true};
ghost use Rattle.rules.specs.Refusals.{accepted, first};
ghost use Rattle.rules.specs.Receiving.{lent_checks};
ghost use Rattle.refusals.specs.Numbers.{number_if};

use refusals::Refusal;

// Whether the table is sound, and the store and the report area, of which a least length is asked, are long enough; else the first refusal.
pub fn areas(sound: bool, store: usize, report: usize, least: usize) -> Result<(), Refusal>
    ensures number { number_if result ≡ first (lent_checks least sound store report) }
    ensures fine { result ≡ Ok tt → accepted (lent_checks least sound store report) ≡ true }
{
    if !sound {
        return Err(Refusal::Unsound);
    }
    if store < rules::STORE {
        return Err(Refusal::StoreShort);
    }
    if report < least {
        return Err(Refusal::ReportShort);
    }
    Ok(())
}
