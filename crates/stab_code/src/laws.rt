//! What each valid program has, node by node and function by function. The calls do nothing.
ghost use Rattle.std.specs.Prelude.{◌≡◌, ℕ, ◌+◌, ◌<◌, ◌≤◌, ◌==◌, ◌++◌, [], List, Option, Some, length, map, slice_get};
ghost use Rattle.std.specs.List.{All, count_by, flat_map};
ghost use Rattle.stab_base.specs.declared.numbers.FnId.{FnId};
ghost use Rattle.stab_base.specs.declared.numbers.TextId.{TextId};
ghost use Rattle.stab_code.specs.declared.job.TheConstants.{MAX_FUEL, MAX_QUANTUM, MAX_SCRIPT};
ghost use Rattle.stab_code.specs.declared.head.Head.{Head};
ghost use Rattle.stab_code.specs.declared.head.Head.TheVariants.{Block};
ghost use Rattle.stab_code.specs.declared.head.TheConstants.{MAX_FORM_DEPTH};
ghost use Rattle.stab_code.specs.declared.node_id.NodeId.{NodeId};
ghost use Rattle.stab_code.specs.EachForm.{AllForms};
ghost use Rattle.stab_code.specs.Heads.{callee_of, text_of};
ghost use Rattle.stab_code.specs.Layout.{nodes_of_all, own_nodes, size_of_all};
ghost use Rattle.stab_code.specs.Limits.{max_form_depth, max_fuel, max_quantum, max_script};
ghost use Rattle.stab_code.specs.Nodes.{NodeParts};
ghost use Rattle.stab_code.specs.Program.{FunctionParts, ProgramParts, arity_of, bodies_of, body_of, tree_at, trees_at, trees_of};
ghost use Rattle.stab_code.specs.Syntax.{depth_from, depth_of, lets_from, lets_of, named_from, named_in, open_from, open_in};
ghost use Rattle.stab_code.specs.Trees.{Trees, fold, tree};
ghost use Rattle.stab_code.specs.Valid.{IsValid, NodesAreInOrder, head_parts};
ghost use Rattle.stab_code.specs.Walk.{values_of};

/// The constants are the limits of the definitions.
pub fn limits()
    ensures form_depth { MAX_FORM_DEPTH ≡ max_form_depth }
    ensures fuel { MAX_FUEL ≡ max_fuel }
    ensures quantum { MAX_QUANTUM ≡ max_quantum }
    ensures script { MAX_SCRIPT ≡ max_script }
{}

/// Of a valid program the tree of a node is its head over the trees of its parts, which come before it, and what it
/// has follows from what they have.
pub fn nodes_are_trees()
    ensures below { (p : ProgramParts) → IsValid p → (n : ℕ) (node : NodeParts) → slice_get p.nodes n ≡ Some node → All (λ part. part.0 < n) node.parts }
    ensures tree { (p : ProgramParts) → IsValid p → (n : NodeId) (node : NodeParts) → slice_get p.nodes n.0 ≡ Some node
        → tree_at p n ≡ tree node.head (trees_at p node.parts) }
    ensures depth { (p : ProgramParts) → IsValid p → (n : NodeId) (node : NodeParts) → slice_get p.nodes n.0 ≡ Some node
        → depth_of (tree_at p n) ≡ depth_from node.head (map (λ part. depth_of (tree_at p part)) node.parts) }
    ensures lets { (p : ProgramParts) → IsValid p → (n : NodeId) (node : NodeParts) → slice_get p.nodes n.0 ≡ Some node
        → lets_of (tree_at p n) ≡ lets_from node.head (map (λ part. lets_of (tree_at p part)) node.parts) }
    ensures named { (p : ProgramParts) → IsValid p → (n : NodeId) (node : NodeParts) → slice_get p.nodes n.0 ≡ Some node
        → named_in (tree_at p n) ≡ named_from node.head (map (λ part. named_in (tree_at p part)) node.parts) }
    ensures opened { (p : ProgramParts) → IsValid p → (n : NodeId) (node : NodeParts) → slice_get p.nodes n.0 ≡ Some node
        → open_in (tree_at p n) ≡ open_from node.head (map (λ part. open_in (tree_at p part)) node.parts) }
{}

/// Numbers that are made node by node from the front, from the heads and the numbers of the parts, are those of the
/// nodes' trees; so are lists of numbers.
pub fn walks_are_folds()
    ensures numbers { (value : Head → List ℕ → ℕ) (nodes : List NodeParts) → values_of value nodes ≡ map (fold value) (trees_of nodes) }
    ensures lists { (value : Head → List (List ℕ) → List ℕ) (nodes : List NodeParts) → values_of value nodes ≡ map (fold value) (trees_of nodes) }
{}

/// A valid program is as large as its functions' bodies together, and each of its nodes is once a part of a node or the
/// body of a function.
pub fn no_other_nodes()
    ensures size { (p : ProgramParts) → IsValid p → length p.nodes ≡ size_of_all (trees_at p (bodies_of p)) }
    ensures once { (p : ProgramParts) → IsValid p → (n : ℕ) → n < length p.nodes
        → count_by (λ part. part.0 == n) (flat_map (λ node. node.parts) p.nodes ++ bodies_of p) ≡ 1 }
    ensures bodies { (p : ProgramParts) → IsValid p → (k : ℕ) (f : FunctionParts) → slice_get p.functions k ≡ Some f → f.body.0 < length p.nodes }
{}

/// No form of a valid program is deeper than the limit.
pub fn no_deep_form()
    ensures { (p : ProgramParts) → IsValid p → (n : NodeId) → n.0 < length p.nodes → depth_of (tree_at p n) ≤ max_form_depth }
{}

/// A program that has the nodes of some trees, one after another, is in order, and these trees are its functions' bodies.
pub fn trees_in_order()
    ensures order { (p : ProgramParts) (ts : Trees) → p.nodes ≡ nodes_of_all 0 ts → bodies_of p ≡ own_nodes 0 ts → NodesAreInOrder p }
    ensures bodies { (p : ProgramParts) (ts : Trees) → p.nodes ≡ nodes_of_all 0 ts → bodies_of p ≡ own_nodes 0 ts → trees_at p (bodies_of p) ≡ ts }
{}

/// Of a valid program a block has a form for each of its items, of which there is at least one, and one after them; the
/// function that a node names is there and takes as many arguments as the node has parts; the text is there.
pub fn heads_fit()
    ensures items { (p : ProgramParts) → IsValid p → (n : ℕ) (node : NodeParts) → slice_get p.nodes n ≡ Some node
        → (slots : List (Option ℕ)) → node.head ≡ Block slots → (0 < length slots) × (length node.parts ≡ length slots + 1) }
    ensures arguments { (p : ProgramParts) → IsValid p → (n : ℕ) (node : NodeParts) → slice_get p.nodes n ≡ Some node
        → (f : FnId) → callee_of node.head ≡ Some f
        → (callee : FunctionParts) × (slice_get p.functions f.0 ≡ Some callee) × (arity_of callee ≡ length node.parts) }
    ensures texts { (p : ProgramParts) → IsValid p → (n : ℕ) (node : NodeParts) → slice_get p.nodes n ≡ Some node
        → (t : TextId) → text_of node.head ≡ Some t → t.0 < length p.texts }
{}

/// Of a valid program each slot that a function's body names is one of the function's, and main takes nothing.
pub fn functions_fit()
    ensures slots { (p : ProgramParts) → IsValid p → (k : ℕ) (f : FunctionParts) → slice_get p.functions k ≡ Some f
        → All (λ slot. slot < f.slots) (named_in (body_of p f)) }
    ensures arity { (p : ProgramParts) → IsValid p → (k : ℕ) (f : FunctionParts) → slice_get p.functions k ≡ Some f → arity_of f ≤ f.slots }
    ensures main { (p : ProgramParts) → IsValid p → (main : FunctionParts) → slice_get p.functions p.main.0 ≡ Some main → main.takes ≡ [] }
{}

/// Of a valid program each form of a function's body has as many parts as its head asks for.
pub fn forms_fit()
    ensures { (p : ProgramParts) → IsValid p → (k : ℕ) (f : FunctionParts) → slice_get p.functions k ≡ Some f
        → AllForms (λ head parts. head_parts p.functions head ≡ Some parts) (body_of p f) }
{}
