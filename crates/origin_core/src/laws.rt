//! Laws of the definitions: each is the contract of an empty function.

ghost use Rattle.std.specs.Prelude.{◌≡◌, ◌↔◌, ◌||◌, ℕ, Bool, true, false, List, Option, Some, None, Ok, IfSome};
ghost use Rattle.url.specs.Parts.{Parts, serialize};
ghost use Rattle.origin_core.specs.declared.origin.Origin.{Origin};
ghost use Rattle.origin_core.specs.declared.origin.Origin.TheVariants.{Tuple};
ghost use Rattle.origin_core.specs.Origin.{is_same_origin, is_same_origin_domain, origin_text, page_tuple, page_origin, origin_read};
ghost use Rattle.origin_core.specs.Page.{IsPageRecord, IsPageText, page_spelled, read_page};
ghost use Rattle.origin_core.specs.Tuple.{TupleParts, IsTuple, is_own_port, within_limit};
ghost use Rattle.origin_core.specs.Host.{IsHost, host_kind};
ghost use Rattle.origin_core.specs.declared.site.Site.TheVariants.{Named};
ghost use Rattle.origin_core.specs.Site.{site_host, site_of, ends_in_dot, fits, IsDomainOf, IsPublicSuffix, IsLabelAbove};
ghost use Rattle.origin_core.specs.Flags as flags;

/// "Same origin" is an equivalence, namely equality.
pub fn same_origin_is_an_equivalence()
    ensures reflexive { (a : Origin) → is_same_origin a a ≡ true }
    ensures symmetric { (a b : Origin) → is_same_origin a b ≡ is_same_origin b a }
    ensures transitive { (a b c : Origin) → is_same_origin a b ≡ true → is_same_origin b c ≡ true → is_same_origin a c ≡ true }
    ensures equality { (a b : Origin) → (is_same_origin a b ≡ true) ↔ (a ≡ b) }
{}

/// "Same origin-domain" is an equivalence. Where neither document has set a domain it is "same origin".
pub fn same_origin_domain_is_an_equivalence()
    ensures reflexive { (a : Origin) (c : Option (List ℕ)) → is_same_origin_domain a c a c ≡ true }
    ensures symmetric { (a b : Origin) (c d : Option (List ℕ)) → is_same_origin_domain a c b d ≡ is_same_origin_domain b d a c }
    ensures transitive { (a b c : Origin) (d e f : Option (List ℕ)) → is_same_origin_domain a d b e ≡ true → is_same_origin_domain b e c f ≡ true → is_same_origin_domain a d c f ≡ true }
    ensures unset { (a b : Origin) → is_same_origin_domain a None b None ≡ is_same_origin a b }
{}

/// The serialization of a tuple origin, and of a page's origin, reads back to that origin.
pub fn origin_text_reads_back()
    ensures tuple { (t : TupleParts) → IsTuple t → origin_read (origin_text (Tuple t)) ≡ Ok (Some (Tuple t)) }
    ensures page { (url : Parts) → IsPageRecord url → IfSome (page_origin (serialize url)) (λ o. origin_read (origin_text o) ≡ Ok (Some o)) }
{}

/// The text of a page's URL reads back as itself, alone and against any base.
pub fn page_text_reads_back()
    ensures alone { (url : Parts) → IsPageRecord url → IsPageText (serialize url) }
    ensures against { (base url : Parts) → IsPageRecord base → IsPageRecord url → read_page (Some (serialize base)) (serialize url) ≡ Ok (serialize url) }
    ensures spelled { (text : List ℕ) → IsPageText text → page_spelled text ≡ Some text }
{}

/// A tuple in range passes each test of its parts.
pub fn a_tuple_passes_its_tests()
    ensures host { (t : TupleParts) → IsTuple t → host_kind t.host ≡ Some t.ip }
    ensures port { (t : TupleParts) → IsTuple t → is_own_port t.scheme t.port ≡ true }
    ensures limit { (t : TupleParts) → IsTuple t → within_limit t ≡ Some t }
{}

/// A text is the host of a web URL in one way only, so the host tells whether it is an address.
pub fn a_host_tells_its_kind()
    ensures { (text : List ℕ) (ip : Bool) → IsHost text ip → host_kind text ≡ Some ip }
{}

/// Setting a domain keeps a document on its site, and documents with one domain have hosts of one
/// site. The hosts may be those of any two pages' URLs.
pub fn a_domain_stays_on_its_site()
    ensures step { (value effective : List ℕ) (ip : Bool) (suffixes : List (List ℕ)) → fits value effective ip suffixes ≡ true → site_host value ip suffixes ≡ site_host effective ip suffixes }
    ensures steps { (host : List ℕ) (ip : Bool) (suffixes : List (List ℕ)) (domain : List ℕ) → IsDomainOf host ip suffixes domain → site_host domain ip suffixes ≡ site_host host ip suffixes }
    ensures one_site { (suffixes : List (List ℕ)) (domain a b : List ℕ) (a_ip b_ip : Bool) → IsHost a a_ip → IsHost b b_ip → IsDomainOf a a_ip suffixes domain → IsDomainOf b b_ip suffixes domain → site_host a a_ip suffixes ≡ site_host b b_ip suffixes }
    ensures pages { (suffixes : List (List ℕ)) (domain one other : List ℕ) (a b : TupleParts) → page_tuple one ≡ Some a → page_tuple other ≡ Some b → IsDomainOf a.host a.ip suffixes domain → IsDomainOf b.host b.ip suffixes domain → site_host a.host a.ip suffixes ≡ site_host b.host b.ip suffixes }
{}

/// The site of a domain is one label, a dot and the domain's public suffix: the longest listed one, or where none is listed
/// its last label. A domain that is its public suffix, a domain that ends in a dot, and an address are their own site.
pub fn a_site_is_a_label_above_a_public_suffix()
    ensures suffix { (host : List ℕ) (suffixes : List (List ℕ)) → (suffix : List ℕ) × IsPublicSuffix host suffixes suffix }
    ensures above { (t : TupleParts) (suffixes : List (List ℕ)) (suffix : List ℕ) → t.ip ≡ false → ends_in_dot t.host ≡ false → IsPublicSuffix t.host suffixes suffix → (t.host ≡ suffix → ⊥)
        → (domain : List ℕ) × (site_of (Tuple t) suffixes ≡ Named t.scheme domain) × IsLabelAbove t.host suffix domain }
    ensures itself { (t : TupleParts) (suffixes : List (List ℕ)) → t.ip ≡ false → IsPublicSuffix t.host suffixes t.host → site_of (Tuple t) suffixes ≡ Named t.scheme t.host }
    ensures dotted { (t : TupleParts) (suffixes : List (List ℕ)) → ends_in_dot t.host ≡ true → site_of (Tuple t) suffixes ≡ Named t.scheme t.host }
    ensures address { (t : TupleParts) (suffixes : List (List ℕ)) → t.ip ≡ true → site_of (Tuple t) suffixes ≡ Named t.scheme t.host }
{}

/// A union has the flags of either set.
pub fn a_union_has_the_flags_of_both()
    ensures { (place a b : ℕ) → flags.has_flag place (flags.union a b) ≡ (flags.has_flag place a || flags.has_flag place b) }
{}

/// An attribute's flags are just those that it sets.
pub fn an_attribute_has_the_flags_it_sets()
    ensures navigation { (text : List ℕ) → flags.has_navigation (flags.flags_of text) ≡ true }
    ensures auxiliary { (text : List ℕ) → flags.has_auxiliary (flags.flags_of text) ≡ flags.sets_auxiliary text }
    ensures top { (text : List ℕ) → flags.has_top (flags.flags_of text) ≡ flags.sets_top text }
    ensures top_by_user { (text : List ℕ) → flags.has_top_by_user (flags.flags_of text) ≡ flags.sets_top_by_user text }
    ensures origin { (text : List ℕ) → flags.has_origin (flags.flags_of text) ≡ flags.sets_origin text }
    ensures scripts { (text : List ℕ) → flags.has_scripts (flags.flags_of text) ≡ flags.sets_scripts text }
    ensures propagates { (text : List ℕ) → flags.has_propagates (flags.flags_of text) ≡ flags.sets_propagates text }
    ensures domain { (text : List ℕ) → flags.has_domain (flags.flags_of text) ≡ true }
{}
