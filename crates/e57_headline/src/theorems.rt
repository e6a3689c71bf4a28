//! Laws of an accepted file and of what is put of it, which no call computes.

ghost use Rattle.std.specs.Prelude.{◌≡◌, ℕ, List, None};
ghost use Rattle.e57_page.specs.File.{opening_fault};
ghost use Rattle.e57_verdict.specs.Content.{Content, IsContent};
ghost use Rattle.e57_verdict.specs.Verdict.{IsVerdict, accepted};
ghost use Rattle.e57_show.specs.Extract.{Asked, Selection, Selects, rows_streamed};
ghost use Rattle.e57_show.specs.Streaming.{IsWhole};
ghost use Rattle.e57_headline.specs.Headline.{IsAsked, ShowsRecords};

use e57_cloud::item_by_record;
use e57_elements::one_answer;
use e57_verdict::one_verdict;

/// A law, which does nothing: no asked item of an accepted file has a fault, and the rows that `extract` puts of it are those
/// of the records of its content. So `extract` is done with such a file, if it has what is asked for, no call fails and memory
/// suffices.
pub fn accepted_rows()
    ensures rows { (file : List ℕ) (content : Content) (k : ℕ) (s : Selection) → IsContent file content → IsAsked file k s →
        ShowsRecords file content k s }
    ensures asked { (file : List ℕ) (asked : Asked) (s : Selection) → Selects asked file s → IsAsked file asked.cloud s }
    ensures opening { (file : List ℕ) (clouds blobs records : ℕ) → IsVerdict file (accepted clouds blobs records) → opening_fault file ≡ None }
    ensures completes { (file : List ℕ) (clouds blobs records : ℕ) (asked : Asked) (s : Selection) →
        IsVerdict file (accepted clouds blobs records) → Selects asked file s → IsWhole (rows_streamed asked) file }
{
    one_answer();
    one_verdict();
    item_by_record();
}
