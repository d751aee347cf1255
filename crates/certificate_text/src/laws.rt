//! Certificates: `text_of` and `certificate_of` are inverse to one another, so that a certificate has one text and a
//! text says one certificate. In version 2 `text_of_two` and `certificate_of_two` are, and in version 4, for wide certificates,
//! `text_of_four` and `certificate_of_four`.

ghost use Rattle.std.specs.Prelude.{◌≡◌, ◌≤◌, ◌++◌, ℕ, ℤ, pos, negsuc, List, [], ◌∷◌, length, true, false, None, Ok, Err, codes};
ghost use Rattle.std.specs.Fmt.{decimal, signed_decimal};
ghost use Rattle.linear.specs.Linear.{Form};
ghost use Rattle.certificate_text.specs.Certificate.{Name, Variable, Argument, Group, Second, Product, Barrier, Congruence, Multiple, Double, Bound, Show, Quotient, Given, Certificate, CertificateFault, BadLine, OtherVersion};
ghost use Rattle.certificate_text.specs.Text.{text_of, descent_text};
ghost use Rattle.certificate_text.specs.Forms.{weighted, form};
ghost use Rattle.certificate_text.specs.Lines.{FactItem, CongruenceItem, MultipleItem, BoundItem, EntryItem, LemmaItem};
ghost use Rattle.certificate_text.specs.Drafts.{wide_certificate};
ghost use Rattle.certificate_text.specs.Reading.{certificate_limit, certificate_of};
ghost use Rattle.certificate_text.specs.Rules.{is_certificate, is_wide_certificate};
ghost use Rattle.certificate_text.specs.FormTables.{FormTable, number_of};
ghost use Rattle.certificate_text.specs.NumberedText.{numbered_line, text_of_two, text_of_four};
ghost use Rattle.certificate_text.specs.NumberedReading.{certificate_of_two, certificate_of_four};
ghost use Rattle.certificate_text.specs.Migrated.{migrated};
ghost use Rattle.certificate_text.specs.Versions.{certificate_in, certificate_any};

/// What is read is the certificate's text, and can be written.
pub fn a_text_is_written_back()
    ensures { (text : List ℕ) (c : Certificate) → certificate_of text ≡ Ok c → (text_of c ≡ text) × (is_certificate c ≡ true) }
{}

/// Each certificate that can be written is read of its text, where that is not too long.
pub fn a_certificate_is_read_back()
    ensures { (c : Certificate) → is_certificate c ≡ true → length (text_of c) ≤ certificate_limit → certificate_of (text_of c) ≡ Ok c }
{}

/// What is read of a text of version 2 is the certificate's text of version 2, and can be written.
pub fn a_text_of_two_is_written_back()
    ensures { (text : List ℕ) (c : Certificate) → certificate_of_two text ≡ Ok c → (text_of_two c ≡ text) × (is_certificate c ≡ true) }
{}

/// Each certificate that can be written is read of its text of version 2, where that is not too long.
pub fn a_certificate_is_read_back_of_two()
    ensures { (c : Certificate) → is_certificate c ≡ true → length (text_of_two c) ≤ certificate_limit → certificate_of_two (text_of_two c) ≡ Ok c }
{}

/// What is read of a text of version 4 is a wide certificate, and the text is its own of version 4.
pub fn a_text_of_four_is_written_back()
    ensures { (text : List ℕ) (c : Certificate) → certificate_of_four text ≡ Ok c → (text_of_four c ≡ text) × (is_wide_certificate c ≡ true) }
{}

/// Each wide certificate that can be written is read of its text of version 4, where that is not too long.
pub fn a_certificate_is_read_back_of_four()
    ensures { (c : Certificate) → is_wide_certificate c ≡ true → length (text_of_four c) ≤ certificate_limit → certificate_of_four (text_of_four c) ≡ Ok c }
{}

/// In version 2 the number of a form stands where version 1 has the form.
pub fn forms_are_written_as_numbers()
    ensures fact { (forms : FormTable) (f : Form Name) → numbered_line forms (FactItem f) ≡ codes "fact " ++ decimal (number_of forms f) }
    ensures congruence { (forms : FormTable) (c : Congruence) → numbered_line forms (CongruenceItem c) ≡ codes "mod " ++ (decimal c.modulus ++ (codes " " ++ decimal (number_of forms c.form))) }
    ensures bound { (forms : FormTable) (b : Bound) → numbered_line forms (BoundItem b) ≡ codes "loop " ++ (decimal b.loop ++ (codes " " ++ (descent_text b.descent ++ (codes " " ++ (signed_decimal b.most ++ (codes " " ++ decimal (number_of forms b.form))))))) }
    ensures multiple { (forms : FormTable) (m : Multiple) → numbered_line forms (MultipleItem m) ≡ codes "multiple " ++ (decimal (number_of forms m.form) ++ (codes " of " ++ decimal (number_of forms m.of))) }
    ensures lemma { (forms : FormTable) (f : Form Name) → numbered_line forms (LemmaItem f) ≡ codes "l " ++ decimal (number_of forms f) }
    ensures quotient { (forms : FormTable) (n : ℕ) (f : Form Name) → numbered_line forms (EntryItem n (Quotient f)) ≡ codes "ob " ++ (decimal n ++ (codes " " ++ (codes "quot " ++ decimal (number_of forms f)))) }
{}

/// In version 4 the line of a loop whose form doubles says from where on it does.
pub fn a_doubling_line_is_written()
    ensures { (forms : FormTable) (loop least : ℕ) (most : ℤ) (f : Form Name) → numbered_line forms (BoundItem (record { loop = loop; descent = Double least; most = most; form = f })) ≡ codes "loop " ++ (decimal loop ++ (codes " double " ++ (decimal least ++ (codes " " ++ (signed_decimal most ++ (codes " " ++ decimal (number_of forms f))))))) }
{}

/// A text of version 1 has a text of version 2 where it says a certificate, and where that is not too long it says the
/// same.
pub fn a_text_is_migrated()
    ensures certificate { (text : List ℕ) (c : Certificate) → certificate_of text ≡ Ok c → migrated text ≡ Ok (text_of_two c) }
    ensures fault { (text : List ℕ) (f : CertificateFault) → certificate_of text ≡ Err f → migrated text ≡ Err f }
    ensures same { (text two : List ℕ) → migrated text ≡ Ok two → length two ≤ certificate_limit → certificate_of_two two ≡ certificate_of text }
{}

/// A text of either version says what it says in its own, and a text that is migrated says the same.
pub fn either_version_is_read()
    ensures one { (text : List ℕ) (c : Certificate) → certificate_of text ≡ Ok c → certificate_in text ≡ Ok c }
    ensures two { (text : List ℕ) (c : Certificate) → certificate_of_two text ≡ Ok c → certificate_in text ≡ Ok c }
    ensures same { (text two : List ℕ) → migrated text ≡ Ok two → length two ≤ certificate_limit → certificate_in two ≡ certificate_in text }
{}

/// A text of version 1, 2 or 4 says what it says in its own, and one of version 1 or 2 says the same to both readers of more versions.
pub fn any_version_is_read()
    ensures one { (text : List ℕ) (c : Certificate) → certificate_of text ≡ Ok c → certificate_any text ≡ Ok c }
    ensures two { (text : List ℕ) (c : Certificate) → certificate_of_two text ≡ Ok c → certificate_any text ≡ Ok c }
    ensures four { (text : List ℕ) (c : Certificate) → certificate_of_four text ≡ Ok c → certificate_any text ≡ Ok c }
    ensures narrow { (text : List ℕ) (c : Certificate) → certificate_in text ≡ Ok c → certificate_any text ≡ Ok c }
    ensures fault { (text : List ℕ) (n : ℕ) → certificate_in text ≡ Err (BadLine n) → certificate_any text ≡ Err (BadLine n) }
    ensures other { (text : List ℕ) → certificate_in text ≡ Err OtherVersion → certificate_any text ≡ certificate_of_four text }
{}

/// Texts of version 2, by example: the certificate of each, or the line of its fault.
pub fn texts_of_two_are_read()
    ensures says { certificate_of_two (codes "certificate 2\nform -1*lid + 1*local.0 + 0\nform 1*lid + -1*local.0 + 0\nplace b3\nfact 1\nfact 2\nend\n") ≡ certificate_of (codes "certificate 1\nplace b3\nfact -1*lid + 1*local.0 + 0\nfact 1*lid + -1*local.0 + 0\nend\n") }
    ensures exchanged { certificate_of_two (codes "certificate 2\nform -1*lid + 1*local.0 + 0\nform 1*lid + -1*local.0 + 0\nplace b3\nfact 2\nfact 1\nend\n") ≡ Err (BadLine 5) }
    ensures unused { certificate_of_two (codes "certificate 2\nform -1*lid + 1*local.0 + 0\nform 1*lid + -1*local.0 + 0\nform 1\nplace b3\nfact 1\nfact 2\nend\n") ≡ Err (BadLine 4) }
    ensures repeated { certificate_of_two (codes "certificate 2\nform 1*lid + -1*local.0 + 0\nform 1*lid + -1*local.0 + 0\nplace b3\nfact 1\nfact 2\nend\n") ≡ Err (BadLine 3) }
    ensures nought { certificate_of_two (codes "certificate 2\nform 1\nplace b3\nfact 0\nend\n") ≡ Err (BadLine 4) }
    ensures past { certificate_of_two (codes "certificate 2\nform 1\nplace b3\nfact 1\nfact 2\nend\n") ≡ Err (BadLine 5) }
    ensures written_out { certificate_of_two (codes "certificate 2\nform 1\nplace b3\nfact 1*lid + 0\nend\n") ≡ Err (BadLine 4) }
    ensures late { certificate_of_two (codes "certificate 2\nplace b3\nsame x\nform 1\nend\n") ≡ Err (BadLine 4) }
    ensures early { certificate_of_two (codes "certificate 2\nform 1\n") ≡ Err (BadLine 3) }
    ensures of_one { certificate_of_two (codes "certificate 1\nplace b3\nsame x\nend\n") ≡ Err OtherVersion }
    ensures without { certificate_of_two (codes "certificate 2\nplace b3\nsame x\nend\n") ≡ certificate_of (codes "certificate 1\nplace b3\nsame x\nend\n") }
    ensures shared { certificate_of_two (codes "certificate 2\nform 1*n + -1\nplace b3\nfact 1\nloop 3 down 1 64 1\nob 2 quot 1\ng 0\nend\n") ≡ certificate_of (codes "certificate 1\nplace b3\nfact 1*n + -1\nloop 3 down 1 64 1*n + -1\nob 2 quot 1*n + -1\ng 0\nend\n") }
{}

/// Texts of version 4, by example. Their lines are none of other versions.
pub fn texts_of_four_are_read()
    ensures doubled { certificate_of_four (codes "certificate 4\nform 1*n + -1\nloop 3 double 2 64 1\nend\n") ≡ Ok (wide_certificate false [] (record { loop = 3; descent = Double 2; most = pos 64; form = form (weighted (pos 1) (Variable (codes "n")) ∷ []) (negsuc 0) } ∷ []) []) }
    ensures any { certificate_any (codes "certificate 4\nform 1*n + -1\nloop 3 double 2 64 1\nend\n") ≡ certificate_of_four (codes "certificate 4\nform 1*n + -1\nloop 3 double 2 64 1\nend\n") }
    ensures from_nought { certificate_of_four (codes "certificate 4\nform 1*n + -1\nloop 3 double 0 64 1\nend\n") ≡ Err (BadLine 3) }
    ensures in_two { certificate_of_two (codes "certificate 2\nform 1*n + -1\nloop 3 double 2 64 1\nend\n") ≡ Err (BadLine 3) }
    ensures in_one { certificate_of (codes "certificate 1\nloop 3 double 2 64 1*n + -1\nend\n") ≡ Err (BadLine 2) }
    ensures of_two { certificate_of_four (codes "certificate 2\nplace b3\nsame x\nend\n") ≡ Err OtherVersion }
    ensures of_three { certificate_of_four (codes "certificate 3\nplace b3\nsame x\nend\n") ≡ Err OtherVersion }
    ensures three { certificate_any (codes "certificate 3\nplace b3\nsame x\nend\n") ≡ Err OtherVersion }
    ensures five { certificate_any (codes "certificate 5\nplace b3\nsame x\nend\n") ≡ Err OtherVersion }
{}

/// Texts of version 4 with products, the second item's symbols and multiples, by example. Other versions have none of
/// them.
pub fn texts_with_products_are_read()
    ensures product { certificate_of_four (codes "certificate 4\nform 1*x*y + 0\nplace b3\nfact 1\nend\n") ≡ Ok (wide_certificate false (record { spot = record { anchor = Barrier 3; head = None }; same = []; facts = form (weighted (pos 1) (Product (Variable (codes "x")) (Variable (codes "y"))) ∷ []) (pos 0) ∷ []; congruences = []; multiples = [] } ∷ []) [] []) }
    ensures three { certificate_of_four (codes "certificate 4\nform 3*arg.w*group.1*group.1 + 0\nplace b3\nfact 1\nend\n") ≡ Ok (wide_certificate false (record { spot = record { anchor = Barrier 3; head = None }; same = []; facts = form (weighted (pos 3) (Product (Argument (codes "w")) (Product (Group Second) (Group Second))) ∷ []) (pos 0) ∷ []; congruences = []; multiples = [] } ∷ []) [] []) }
    ensures second { certificate_of_four (codes "certificate 4\nform 1*x'*y + 0\nplace b3\nfact 1\nend\n") ≡ Ok (wide_certificate false (record { spot = record { anchor = Barrier 3; head = None }; same = []; facts = form (weighted (pos 1) (Product (Second (Variable (codes "x"))) (Variable (codes "y"))) ∷ []) (pos 0) ∷ []; congruences = []; multiples = [] } ∷ []) [] []) }
    ensures out_of_order { certificate_of_four (codes "certificate 4\nform 1*y*x + 0\nplace b3\nfact 1\nend\n") ≡ Err (BadLine 2) }
    ensures too_many { certificate_of_four (codes "certificate 4\nform 1*x*x*x*x + 0\nplace b3\nfact 1\nend\n") ≡ Err (BadLine 2) }
    ensures product_in_two { certificate_of_two (codes "certificate 2\nform 1*x*y + 0\nplace b3\nfact 1\nend\n") ≡ Err (BadLine 2) }
    ensures second_in_one { certificate_of (codes "certificate 1\nplace b3\nfact 1*x' + 0\nend\n") ≡ Err (BadLine 3) }
    ensures multiple { certificate_of_four (codes "certificate 4\nform 1*x + 0\nplace b3\nmultiple 1 of 1\nend\n") ≡ Ok (wide_certificate false (record { spot = record { anchor = Barrier 3; head = None }; same = []; facts = []; congruences = []; multiples = record { of = form (weighted (pos 1) (Variable (codes "x")) ∷ []) (pos 0); form = form (weighted (pos 1) (Variable (codes "x")) ∷ []) (pos 0) } ∷ [] } ∷ []) [] []) }
    ensures multiple_in_two { certificate_of_two (codes "certificate 2\nform 1*x + 0\nplace b3\nmultiple 1 of 1\nend\n") ≡ Err (BadLine 4) }
{}

/// Texts of version 4 with lemmas and products of lines, by example. Other versions have none of them.
pub fn texts_with_lemmas_are_read()
    ensures lemma { certificate_of_four (codes "certificate 4\nform 1*x + 0\nob 2 show\nl 1\ng 1\nm\np 1 2\nend\n") ≡ Ok (wide_certificate false [] [] (record { obligation = 2; sort = Show; lemmas = record { form = form (weighted (pos 1) (Variable (codes "x")) ∷ []) (pos 0); steps = Given (pos 1) ∷ [] } ∷ []; steps = Product (pos 1) (pos 2) ∷ [] } ∷ [])) }
    ensures not_ended { certificate_of_four (codes "certificate 4\nform 1*x + 0\nob 2 show\nl 1\ng 1\nend\n") ≡ Err (BadLine 6) }
    ensures not_asked { certificate_of_four (codes "certificate 4\nob 2 show\nm\ng 1\nend\n") ≡ Err (BadLine 3) }
    ensures twice { certificate_of_four (codes "certificate 4\nform 1*x + 0\nob 2 show\nl 1\nm\nm\nend\n") ≡ Err (BadLine 6) }
    ensures late { certificate_of_four (codes "certificate 4\nform 1*x + 0\nob 2 show\ng 1\nl 1\nm\nend\n") ≡ Err (BadLine 5) }
    ensures lemma_in_two { certificate_of_two (codes "certificate 2\nform 1*x + 0\nob 2 show\nl 1\nm\nend\n") ≡ Err (BadLine 4) }
    ensures step_in_one { certificate_of (codes "certificate 1\nob 2 show\np 1 2\nend\n") ≡ Err (BadLine 3) }
{}

/// Texts of version 4 of a certificate that joins, by example: the line `join` stands behind the first line, and faults
/// count it. Other versions have none.
pub fn texts_that_join_are_read()
    ensures joined { certificate_of_four (codes "certificate 4\njoin\nplace b3\nsame x\nend\n") ≡ Ok (wide_certificate true (record { spot = record { anchor = Barrier 3; head = None }; same = codes "x" ∷ []; facts = []; congruences = []; multiples = [] } ∷ []) [] []) }
    ensures unused { certificate_of_four (codes "certificate 4\njoin\nform 1\nplace b3\nsame x\nend\n") ≡ Err (BadLine 3) }
    ensures bad { certificate_of_four (codes "certificate 4\njoin\nplace b3\nend\n") ≡ Err (BadLine 4) }
    ensures twice { certificate_of_four (codes "certificate 4\njoin\njoin\nend\n") ≡ Err (BadLine 3) }
    ensures late { certificate_of_four (codes "certificate 4\nplace b3\nsame x\njoin\nend\n") ≡ Err (BadLine 4) }
    ensures with_word { certificate_of_four (codes "certificate 4\njoin 1\nend\n") ≡ Err (BadLine 2) }
    ensures without_end { certificate_of_four (codes "certificate 4\njoin") ≡ Err (BadLine 2) }
    ensures in_two { certificate_of_two (codes "certificate 2\njoin\nplace b3\nsame x\nend\n") ≡ Err (BadLine 2) }
    ensures in_one { certificate_of (codes "certificate 1\njoin\nplace b3\nsame x\nend\n") ≡ Err (BadLine 2) }
{}
