//! Laws of canonical files: functions that do nothing, whose contracts are theorems.
ghost use Rattle.std.specs.Prelude.{◌≡◌, ◌≤◌, ◌<◌, ◌^◌, ◌⊎◌, ◌++◌, ◌∷◌, ℕ, List, [], Option, Some, length};
ghost use Rattle.hdt_wire.specs.Checks.{IsBytes};
ghost use Rattle.hdt_dict.specs.Strings.{SameMembers};
ghost use Rattle.hdt_front.specs.Order.{string_cmp};
ghost use Rattle.hdt_terms.specs.declared.triple.Triple.{Triple};
ghost use Rattle.hdt_terms.specs.Lines.{Document};
ghost use Rattle.hdt_build.specs.Built.{IsBuilt, Builds, IsRewritten, BuiltGraph, joined_triples, graphs_of};
ghost use Rattle.hdt_build.specs.Canonical.{IsCanonical};
ghost use Rattle.hdt_build.specs.Documents.{BuiltDocument, prefixed_documents, prefixed_graphs};
ghost use Rattle.hdt_file.specs.Denoted.{StringTriple};
ghost use Rattle.hdt_file.specs.File.{GraphParts, IsLayout};
ghost use Rattle.hdt_build.specs.Header.{header_body};
ghost use Rattle.hdt_build.specs.Layouts.{IsLayoutOf, IsVerified, denoted_by, union_apart, union_of};
ghost use Rattle.hdt_build.specs.Options.{AreValidOptions, IsBlockSize};
ghost use Rattle.hdt_build.specs.Reading.{most, IsBuildFaultOf, ReadFailed};
ghost use Rattle.hdt_build.specs.Relabelling.{relabelled};
ghost use Rattle.hdt_build.specs.declared.fault.BuildFault.{BuildFault};
ghost use Rattle.hdt_build.specs.declared.options.Options.{Options};
ghost use Rattle.hdt_build.specs.declared.options.Report.{Report};

use hdt_file::{one_layout, one_tight_layout};
use hdt_terms::{line_or_fault, text_encodes_one_term};

/// A canonical file is a valid file with its header body: `open` of hdt_file accepts it, and its graph has exactly the
/// given triples, each once. The same holds for a file that is built.
pub fn canonical_files_are_layouts()
    ensures canonical { (header : List ℕ) (graph : List StringTriple) (b : ℕ) (bytes : List ℕ)
        (file : IsCanonical header graph b bytes)
        → 1 ≤ b → b < 2 ^ 64 → length bytes < 2 ^ 64 → length file.triples < 2 ^ 64 → IsLayoutOf header graph bytes }
    ensures built { (options : Options) (graph : List StringTriple) (bytes : List ℕ) (report : Report)
        → AreValidOptions options → IsBuilt options graph bytes report
        → length bytes < 2 ^ 64 → report.triples < 2 ^ 64
        → IsLayoutOf (header_body options.base.items report.triples) graph bytes }
{}

/// The report of a file that is built or rewritten has the counts that `verify` and `verify_tight` of hdt_file return
/// for it, and its length in bytes.
pub fn reports_are_verified()
    ensures built { (options : Options) (graph : List StringTriple) (bytes : List ℕ) (report : Report)
        → AreValidOptions options → IsBuilt options graph bytes report
        → IsBytes bytes → length bytes < 2 ^ 64 → report.triples < 2 ^ 64 → IsVerified bytes report }
    ensures rewritten { (b : ℕ) (graph : GraphParts) (bytes : List ℕ) (report : Report) → IsBlockSize b
        → IsRewritten b graph bytes report
        → IsBytes bytes → length bytes < 2 ^ 64 → report.triples < 2 ^ 64 → IsVerified bytes report }
{
    one_layout();
    one_tight_layout();
}

/// A header body, a set of triples and a block size have only one canonical file.
pub fn one_canonical_file()
    ensures { (header : List ℕ) (g h : List StringTriple) (b : ℕ) (x y : List ℕ) → SameMembers g h
        → IsCanonical header g b x → IsCanonical header h b y → x ≡ y }
{}

/// Equal sets of triples under equal options have equal files and equal reports.
pub fn equal_graphs_equal_files()
    ensures file { (options : Options) (g h : List StringTriple) (x y : List ℕ) (r s : Report) → SameMembers g h
        → IsBuilt options g x r → IsBuilt options h y s → x ≡ y }
    ensures report { (options : Options) (g h : List StringTriple) (x y : List ℕ) (r s : Report) → SameMembers g h
        → IsBuilt options g x r → IsBuilt options h y s → r ≡ s }
{}

/// An input is one document at most: its triples are determined.
pub fn one_document()
    ensures { (bytes : List ℕ) (ts us : List Triple) → Document bytes ts → Document bytes us → ts ≡ us }
{
    line_or_fault();
}

/// Nothing is built from a document without triples. The error is then `NoTriples`, unless the reader fails or memory
/// runs out.
pub fn no_triples_is_reported()
    ensures unbuilt { (options : Options) (bytes made : List ℕ) (report : Report)
        → Builds options (Some bytes) made report → Document bytes [] → ⊥ }
    ensures fault { (bytes : List ℕ) (after : Option (List ℕ)) (e : BuildFault) → IsBuildFaultOf (Some bytes) after e
        → Document bytes [] → length bytes ≤ most
        → (e ≡ BuildFault.NoTriples) ⊎ ((e ≡ BuildFault.OutOfMemory) ⊎ ReadFailed e) }
{
    line_or_fault();
}

/// A rewritten file is a valid file with the graph's header body and without unused strings: `open_tight` of hdt_file
/// accepts it, and its graph has exactly the triples of the old one, each once.
pub fn rewriting_keeps_the_graph()
    ensures { (b : ℕ) (graph : GraphParts) (bytes : List ℕ) (report : Report) → IsBlockSize b
        → IsRewritten b graph bytes report
        → length bytes < 2 ^ 64 → report.triples < 2 ^ 64 → IsLayoutOf graph.header (denoted_by graph) bytes }
{}

/// A file that was rewritten or built doesn't change if it is rewritten with the same block size.
pub fn rewriting_again_changes_nothing()
    ensures rewritten { (b : ℕ) (graph h : GraphParts) (x y : List ℕ) (r s : Report) → IsBlockSize b
        → IsRewritten b graph x r → IsBytes x → length x < 2 ^ 64 → r.triples < 2 ^ 64
        → IsLayout x h → IsRewritten b h y s → x ≡ y }
    ensures built { (options : Options) (graph : List StringTriple) (h : GraphParts) (x y : List ℕ) (r s : Report)
        → AreValidOptions options → IsBuilt options graph x r → IsBytes x → length x < 2 ^ 64 → r.triples < 2 ^ 64
        → IsLayout x h → IsRewritten options.block_size h y s → x ≡ y }
{
    one_layout();
}

/// Merging files that were built from documents gives the file that is built from all documents together, as if they
/// were one after another; with a prefix for the labels of each document, too. Merging a file that was itself merged,
/// or built, gives what merging its inputs does.
pub fn merging_is_building()
    ensures built { (options : Options) (files : List BuiltGraph) (x y : List ℕ) (r s : Report)
        → IsBuilt options (union_of (graphs_of files)) x r → IsBuilt options (joined_triples files) y s → x ≡ y }
    ensures apart { (options : Options) (documents : List BuiltDocument) (x y : List ℕ) (r s : Report)
        → IsBuilt options (union_apart (prefixed_graphs documents)) x r
        → IsBuilt options (prefixed_documents documents) y s → x ≡ y }
    ensures merged { (options : Options) (file : BuiltGraph) (inputs others : List GraphParts) (x y : List ℕ)
        (r s : Report) → file.triples ≡ union_of inputs
        → IsBuilt options (union_of (file.graph ∷ others)) x r → IsBuilt options (union_of (inputs ++ others)) y s
        → x ≡ y }
{
    one_layout();
    text_encodes_one_term();
}

/// A prefix before the labels keeps the order of strings, so that those of a section still ascend, and no two become
/// one.
pub fn relabelling_keeps_the_order()
    ensures order { (prefix x y : List ℕ) → string_cmp (relabelled prefix x) (relabelled prefix y) ≡ string_cmp x y }
    ensures distinct { (prefix x y : List ℕ) → relabelled prefix x ≡ relabelled prefix y → x ≡ y }
{}

/// The order of the inputs and duplicates make no difference to the file. Merging one graph gives what rewriting it
/// does, if it has the header of a merged file.
pub fn merging_is_a_union()
    ensures order { (options : Options) (gs hs : List GraphParts) (x y : List ℕ) (r s : Report) → SameMembers gs hs
        → IsBuilt options (union_of gs) x r → IsBuilt options (union_of hs) y s → x ≡ y }
    ensures one { (options : Options) (g : GraphParts) (x y : List ℕ) (r s : Report)
        → IsBuilt options (union_of (g ∷ [])) x r → IsRewritten options.block_size g y s
        → g.header ≡ header_body options.base.items r.triples → x ≡ y }
{}
