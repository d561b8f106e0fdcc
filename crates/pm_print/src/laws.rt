//! Laws of lines: how long the line of a reply can be, that it has one meaning, and that the line of a request asks for it.

ghost use Rattle.std.specs.Prelude.{ℕ, List, Option, codes, length, ◌≡◌, ◌≤◌, ◌++◌};
ghost use Rattle.pm_model.specs.Asked.{asked};
ghost use Rattle.pm_model.specs.Text.{text};
ghost use Rattle.pm_model.specs.declared.replies.Reply.{Reply};
ghost use Rattle.pm_model.specs.declared.requests.Request.{Request};
ghost use Rattle.pm_print.specs.Askable.{IsAskable, IsWholeIf, asking};
ghost use Rattle.pm_print.specs.Growth.{reply_most};
ghost use Rattle.pm_print.specs.Printable.{IsPrintable};
ghost use Rattle.pm_print.specs.Requested.{request_text};
ghost use Rattle.pm_print.specs.Shown.{shown};

/// The line of a reply has at most 1,024 bytes with its line feed, and one with a list at most 90 more for each of its items,
/// or 107 more where the list tells what has changed.
pub fn reply_is_short()
    ensures { (id : Option ℕ) (version : ℕ) (names : ℕ → List ℕ) (reply : Reply)
        → IsPrintable id version names reply → length (text id version names reply) ≤ reply_most reply }
{}

/// Two replies with one line show the same, with one id and at one version: they are one reply, but
/// for the numbers of elements, where the elements' names are the same.
pub fn line_has_one_meaning()
    ensures { (id other_id : Option ℕ) (version other_version : ℕ) (names other_names : ℕ → List ℕ) (reply other : Reply)
        → IsPrintable id version names reply → IsPrintable other_id other_version other_names other
        → text id version names reply ≡ text other_id other_version other_names other
        → (id ≡ other_id) × (version ≡ other_version) × (shown names reply ≡ shown other_names other) }
{}

/// The line of a request, without its line feed, asks for that request, with that id or none, where the request is one that a
/// line can ask for: names are names, numbers fit, no right stands twice, lists and responses are within their limits.
pub fn printed_is_asked()
    ensures { (id : Option ℕ) (request : Request) (line : List ℕ) → IsWholeIf id → IsAskable request
        → request_text id request ≡ line ++ codes "\n" → asked line ≡ asking id request }
{}
