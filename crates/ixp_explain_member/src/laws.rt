//! What the texts of a valid registry say of its routes.
ghost use Rattle.std.specs.Prelude.{◌≡◌, ℕ, false, List, Some, Result, Ok, Err};
ghost use Rattle.ixp_num_tables.specs.Tables.{find};
ghost use Rattle.ixp_num.specs.declared.asn.Asn.{Asn};
ghost use Rattle.ixp_num.specs.Families.{same_family};
ghost use Rattle.ixp_lang.specs.declared.route.Route.{Route};
ghost use Rattle.ixp_registry.specs.declared.registry.Registry.{Registry};
ghost use Rattle.ixp_registry.specs.declared.router.Router.{Router};
ghost use Rattle.ixp_registry.specs.Keys.{router_key};
ghost use Rattle.ixp_registry.specs.Sessions.{Session, session};
ghost use Rattle.ixp_registry.specs.Valid.{Valid};
ghost use Rattle.ixp_compile.specs.Generated.{roa_tables};
ghost use Rattle.ixp_compile_laws.specs.Right.{Gen, Part};
ghost use Rattle.ixp_explain.specs.declared.report.ExplainFault.{ExplainFault};
ghost use Rattle.ixp_explain.specs.declared.report.OwnReport.{OwnReport};
ghost use Rattle.ixp_explain.specs.declared.report.Report.{Report};
ghost use Rattle.ixp_explain.specs.Answers.{Answers, Tells};
ghost use Rattle.ixp_explain.specs.Explained.{explained, other_family, own_explained};
ghost use Rattle.ixp_explain_member.specs.Rows.{ExplainsRows, TellsRows, own_report_by_rows, report_by_rows};

/// The text of a router of a valid registry explains each route that a session of it brings as the rules over
/// the rows do: the report has the route's fate and the number with which it is refused. A route of the other
/// family is told so, and nothing else goes wrong.
pub fn generated_text_explains()
    ensures { (r : Registry) (handle : List ℕ) (router : Router) (n : ℕ) (s : Session) → Valid r
        → find router_key handle r.routers ≡ Some router → session r router n ≡ Some s
        → ExplainsRows r router n s }
{}

/// A session's own text tells its member of each route what the rules say: the route as the server holds it,
/// whether it passes, with the number with which it is refused if it doesn't, and for each peer the wish.
pub fn own_text_explains()
    ensures { (r : Registry) (handle : List ℕ) (router : Router) (n : ℕ) (s : Session) → Valid r
        → find router_key handle r.routers ≡ Some router → session r router n ≡ Some s
        → TellsRows r router n s }
{}

/// So whatever [`ixp_explain::explain`] answers of a router's text is the report by the rows, or that the
/// route is of the other family, or running out of memory.
pub fn staff_are_told_the_rules()
    ensures report { (r : Registry) (handle : List ℕ) (router : Router) (n : ℕ) (s : Session) (route : Route)
        (answer : Result Report ExplainFault) →
        Valid r → find router_key handle r.routers ≡ Some router → session r router n ≡ Some s
        → route.net.family ≡ router.family →
        Answers (Gen r router) (λ items. explained items (roa_tables r) n route) answer
        → Tells answer (Ok (report_by_rows r router s route)) }
    ensures apart { (r : Registry) (handle : List ℕ) (router : Router) (n : ℕ) (s : Session) (route : Route)
        (answer : Result Report ExplainFault) →
        Valid r → find router_key handle r.routers ≡ Some router → session r router n ≡ Some s
        → same_family router.family route.net.family ≡ false →
        Answers (Gen r router) (λ items. explained items (roa_tables r) n route) answer
        → Tells answer (Err (other_family router.family)) }
{}

/// Likewise whatever [`ixp_explain::explain_member`] answers of a session's own text.
pub fn members_are_told_the_rules()
    ensures report { (r : Registry) (handle : List ℕ) (router : Router) (n : ℕ) (s : Session) (route : Route)
        (peers : List Asn) (answer : Result OwnReport ExplainFault) →
        Valid r → find router_key handle r.routers ≡ Some router → session r router n ≡ Some s
        → route.net.family ≡ router.family →
        Answers (Part r router s) (λ items. own_explained items (roa_tables r) n route peers) answer
        → Tells answer (Ok (own_report_by_rows r router s route peers)) }
    ensures apart { (r : Registry) (handle : List ℕ) (router : Router) (n : ℕ) (s : Session) (route : Route)
        (peers : List Asn) (answer : Result OwnReport ExplainFault) →
        Valid r → find router_key handle r.routers ≡ Some router → session r router n ≡ Some s
        → same_family router.family route.net.family ≡ false →
        Answers (Part r router s) (λ items. own_explained items (roa_tables r) n route peers) answer
        → Tells answer (Err (other_family router.family)) }
{}
