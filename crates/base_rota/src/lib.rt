// Which rotas there are.
#![tactic(auto)]

ghost use Rattle.std.specs.Prelude.{◌≡◌};
ghost use Rattle.spec_outcome.specs.Rota.{quota_fits, rota_fits};

// "a quota of 1 to 1,000 offered rows a round"
fn quota_fits(q: u64) -> bool
    ensures { result ≡ quota_fits q }
{
    if q == 0 {
        return false;
    }
    q <= 1000
}

// "a rota of 1 to 4 seats, each with a quota": the quotas, one for each seat
pub fn rota_fits(quotas: &[u64]) -> bool
    ensures { result ≡ rota_fits quotas.now }
{
    let n = quotas.len();
    if n == 0 {
        return false;
    }
    if 4 < n {
        return false;
    }
    for &q in quotas {
        if !quota_fits(q) {
            return false;
        }
    }
    true
}
