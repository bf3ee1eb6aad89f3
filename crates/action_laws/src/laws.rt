// Laws of the definitions, each the contract of a function that does nothing.

ghost use Rattle.std.specs.Prelude.{◌≡◌, ℕ, ◌+◌, ◌-◌, ◌*◌, min, ◌<◌, ◌≤◌, ◌^◌, true, List, [], ◌∷◌, Some, None, length, map, cond, nat_eq};
ghost use Rattle.spirv_words.specs.Machine.{Shape};
ghost use Rattle.spirv_words.specs.Step.{spot};
ghost use Rattle.flat_values.specs.declared.operators.Unary.{Unary};
ghost use Rattle.flat_values.specs.declared.operators.Binary.{Binary};
ghost use Rattle.flat_values.specs.Operators.{unary_of, binary_of};
ghost use Rattle.flat_values.specs.Flat.{width};
ghost use Rattle.flat_values.specs.Lanes.{both_of};
ghost use Rattle.flat_values.specs.Ranges.{Stands, written, cleared};
ghost use Rattle.flat_values.specs.Pieces.{piece, At};
ghost use Rattle.run_actions.specs.declared.actions.Index.{Index};
ghost use Rattle.run_actions.specs.declared.actions.Move.{Move};
ghost use Rattle.run_actions.specs.Ranges.{with_word, put_at, put_both_at, copy_at, gather_at, one_at, is_apart};
ghost use Rattle.run_actions.specs.Chains.{moved_on};
ghost use Rattle.run_actions.specs.Steps.{FlatTurn, Goes, Reads, Writes, IsUndefined, IsStuck, goes_on, with_place, chain, buffer_chain, choose, entered, two, load, store, read, write, give_back};
ghost use Rattle.action_laws.specs.Paths.{Item, Plan, plan, buffer_plan, path_of, some_negative, AreThere, led, led_in_buffer};

/// Where operands stand, an action writes what the operator, the variable or the function makes of them.
pub fn actions_do_what_stands()
    ensures copied { (xs ws : List ℕ) (from to : ℕ) → Stands xs from ws → to + length xs ≤ length ws
        → copy_at ws from to (length xs) ≡ Some (written ws to xs) }
    ensures one { (op : Unary) (xs ws : List ℕ) (from to : ℕ) → Stands xs from ws → to + length xs ≤ length ws
        → is_apart from to (length xs) ≡ true → one_at op ws from to (length xs) ≡ Some (written ws to (map (unary_of op) xs)) }
    ensures two_defined { (op : Binary) (xs ys zs ws : List ℕ) (next left right to : ℕ) → Stands xs left ws → Stands ys right ws
        → length xs ≡ length ys → to + length xs ≤ length ws → is_apart left to (length xs) ≡ true → is_apart right to (length xs) ≡ true
        → both_of (binary_of op) xs ys ≡ Some zs → two op next ws left right to (length xs) ≡ Goes next (written ws to zs) }
    ensures two_undefined { (op : Binary) (xs ys ws : List ℕ) (next left right to : ℕ) → Stands xs left ws → Stands ys right ws
        → length xs ≡ length ys → to + length xs ≤ length ws → is_apart left to (length xs) ≡ true → is_apart right to (length xs) ≡ true
        → both_of (binary_of op) xs ys ≡ None → two op next ws left right to (length xs) ≡ IsUndefined }
    ensures loaded { (xs ws : List ℕ) (next pointer p to : ℕ) → Stands (p ∷ []) pointer ws → Stands xs p ws → to + length xs ≤ length ws
        → load next ws pointer to (length xs) ≡ Goes next (written ws to xs) }
    ensures stored { (xs ws : List ℕ) (next pointer p from : ℕ) → Stands (p ∷ []) pointer ws → Stands xs from ws → p + length xs ≤ length ws
        → store next ws pointer from (length xs) ≡ Goes next (written ws p xs) }
    ensures read { (ws : List ℕ) (pointer b i to : ℕ) → Stands (b ∷ i ∷ []) pointer ws → to < length ws → read ws pointer to ≡ Reads b i to }
    ensures wrote { (ws : List ℕ) (pointer b i from w : ℕ) → Stands (b ∷ i ∷ []) pointer ws → Stands (w ∷ []) from ws
        → write ws pointer from ≡ Writes b i w }
    ensures given_back { (xs ws : List ℕ) (frame p to from : ℕ) → Stands (p ∷ to ∷ []) frame ws → Stands xs from ws
        → to + length xs ≤ length ws → give_back ws frame from (length xs) ≡ Goes p (written ws to xs) }
{}

/// Where arguments, pointers and the words that a call keeps stand, a call copies the arguments one after another, clears the
/// variables and keeps its two words; a return and a choice go where the words say; a chain goes on from where its pointer leads.
pub fn calls_do_what_stands()
    ensures put { (ws : List ℕ) (to w : ℕ) → to < length ws → put_at ws to w ≡ Some (written ws to (w ∷ [])) }
    ensures put_both { (ws : List ℕ) (to v w : ℕ) → to + 1 < length ws → put_both_at ws to v w ≡ Some (written ws to (v ∷ w ∷ [])) }
    ensures gathered { (m : Move) (ms : List Move) (xs ws : List ℕ) → Stands xs m.from ws → m.count ≡ length xs
        → m.to + length xs ≤ length ws → gather_at (m ∷ ms) ws ≡ gather_at ms (written ws m.to xs) }
    ensures entered { (parts : List Move) (ws vs : List ℕ) (first count frame back to : ℕ) → gather_at parts ws ≡ Some vs
        → first + count ≤ length vs → frame + 1 < length (cleared vs first count)
        → entered ws parts first count frame back to ≡ Some (written (cleared vs first count) frame (back ∷ to ∷ [])) }
    ensures chosen { (ws : List ℕ) (condition one other w : ℕ) → Stands (w ∷ []) condition ws
        → choose ws condition one other ≡ Goes (cond (nat_eq w 0) other one) ws }
    ensures returned { (ws : List ℕ) (frame p : ℕ) → Stands (p ∷ []) frame ws
        → with_word ws frame IsStuck (λ q. Goes q ws) ≡ Goes p ws }
    ensures pointed { (ws : List ℕ) (next pointer p to offset : ℕ) (steps : List Index) → Stands (p ∷ []) pointer ws
        → chain next ws pointer to offset steps ≡ with_place (moved_on ws 0 steps p offset) (λ q. goes_on next (put_at ws to q)) }
    ensures buffer_pointed { (lengths ws : List ℕ) (next pointer b p n to offset : ℕ) (steps : List Index)
        → Stands (b ∷ p ∷ []) pointer ws → Stands (n ∷ []) b lengths → buffer_chain next lengths ws pointer to offset steps
        ≡ with_place (moved_on ws n steps p offset) (λ q. goes_on next (put_both_at ws to b q)) }
{}

/// Where the indices of a chain are resolved to an offset and steps, these lead to the piece at the path that the indices stand
/// for, and out of range where that is so or an int is below 0.
pub fn chains_lead_to_pieces()
    ensures place { (s t : Shape) (items : List Item) (offset from : ℕ) (steps : List Index) (ws : List ℕ)
        → plan s items ≡ Plan offset steps t → AreThere ws items → from + width s < 2 ^ 32
        → moved_on ws 0 steps from offset ≡ led (some_negative ws items) (piece s (path_of ws items) from) }
    ensures shape { (s t u : Shape) (items : List Item) (offset from q : ℕ) (steps : List Index) (ws : List ℕ)
        → plan s items ≡ Plan offset steps t → piece s (path_of ws items) from ≡ At q u → u ≡ t }
{}

/// The same in a buffer: where the indices are resolved, they lead to the word of the byte at the path that they stand for. A word
/// whose number has more than 32 bits is told as the last one.
pub fn buffer_chains_lead_to_bytes()
    ensures { (s t : Shape) (items : List Item) (offset x words : ℕ) (steps : List Index) (ws : List ℕ)
        → buffer_plan s items ≡ Plan offset steps t → AreThere ws items
        → moved_on ws words steps (min x (2 ^ 32 - 1)) offset ≡ led_in_buffer (some_negative ws items) (spot words s (path_of ws items) (4 * x)) }
{}
