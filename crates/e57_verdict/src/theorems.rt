//! Laws of verdicts and contents, which no call computes.

ghost use Rattle.std.specs.Prelude.{◌≡◌, ℕ, List, None};
ghost use Rattle.std.specs.Option.{option_or};
ghost use Rattle.e57_page.specs.Header.{header_of};
ghost use Rattle.e57_page.specs.File.{logical_size, opening_fault};
ghost use Rattle.e57_page.specs.XmlSection.{xml_section_fault, xml_span_fault};
ghost use Rattle.e57_verdict.specs.Content.{Content, IsContent};
ghost use Rattle.e57_verdict.specs.Verdict.{all_pages_fault, fault_before_text, IsVerdict, Verdict, accepted};

use e57_elements::one_answer;

/// A law, which does nothing: each file has one verdict. It is accepted or has a first fault, and never both.
pub fn one_verdict()
    ensures some { (file : List ℕ) → (verdict : Verdict) × IsVerdict file verdict }
    ensures one { (file : List ℕ) (a b : Verdict) → IsVerdict file a → IsVerdict file b → a ≡ b }
{
    one_answer();
}

/// A law, which does nothing: an accepted file has one content, and only an accepted file has one.
pub fn one_content()
    ensures some { (file : List ℕ) (clouds blobs records : ℕ) → IsVerdict file (accepted clouds blobs records) →
        (content : Content) × IsContent file content }
    ensures accepted { (file : List ℕ) (content : Content) → IsContent file content →
        (clouds blobs records : ℕ) × IsVerdict file (accepted clouds blobs records) }
    ensures one { (file : List ℕ) (a b : Content) → IsContent file a → IsContent file b → a ≡ b }
{
    one_answer();
}

/// A law, which does nothing: the verdict begins with the faults that are met when a file is opened. Its next ones are those of
/// all pages, and then those of the place and length of the XML section; where all pages are right, they are those that are met when the
/// section is read.
pub fn opening_agrees()
    ensures opening { (file : List ℕ) → fault_before_text file
        ≡ option_or (opening_fault file) (option_or (all_pages_fault file) (xml_span_fault (header_of file) (logical_size file))) }
    ensures section { (file : List ℕ) → all_pages_fault file ≡ None →
        fault_before_text file ≡ option_or (opening_fault file) (xml_section_fault (header_of file) file) }
{}
