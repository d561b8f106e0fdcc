//! Laws of the lines of requests, over what reads them and what prints them.
#![tactic(auto)]

ghost use Rattle.std.specs.Prelude.{ℕ, List, Option, None, codes, length, ◌≡◌, ◌≤◌, ◌++◌, ◌⊎◌};
ghost use Rattle.pm_model.specs.Asked.{asked};
ghost use Rattle.pm_model.specs.declared.requests.Request.{Request};
ghost use Rattle.pm_print.specs.Askable.{IsAskable, IsWholeIf, asking};
ghost use Rattle.pm_print.specs.Requested.{request_text};

/// What a line asks for is a request that a line can ask for.
pub fn asked_is_askable()
    ensures { (line : List ℕ) (id : Option ℕ) (request : Request) → asked line ≡ asking id request → IsWholeIf id × IsAskable request }
{}

/// Whatever a line asks for is asked for again by the line that it is printed as, with any id or none.
pub fn asked_again()
    ensures { (line again : List ℕ) (id other : Option ℕ) (request : Request) → asked line ≡ asking id request
        → IsWholeIf other → request_text other request ≡ again ++ codes "\n" → asked again ≡ asking other request }
{}

/// The line that a request is printed as, with the id of a line that asks for it or with none, has no more bytes than that line,
/// whatever its white space, its escapes and the order of its keys.
pub fn printed_is_no_longer()
    ensures { (line again : List ℕ) (id other : Option ℕ) (request : Request) → asked line ≡ asking id request
        → (other ≡ id) ⊎ (other ≡ None) → request_text other request ≡ again ++ codes "\n" → length again ≤ length line }
{}
