// The project's claims, stated in specs/ and proved in proofs/. There is no code here but one function
// without work: its contract is the page of all claims, specs/Claims, so that the crate is proved only
// where every claim is.
#![tactic(auto)]

ghost use Rattle.claims.specs.Claims.{Claims};

// The claims hold.
pub fn hold()
    ensures { Claims }
{}
