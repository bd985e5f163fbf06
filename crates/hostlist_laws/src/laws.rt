//! The laws, each the contract of a function.
ghost use Rattle.std.specs.Prelude.{◌≡◌, ◌≤◌, ◌<◌, ℕ, List, Some, None, length};
ghost use Rattle.hostlist.specs.Reading.{first_fault, spelled, text_fault};
ghost use Rattle.hostlist.specs.declared.faults.HostFault.TheVariants.{TooMany};
ghost use Rattle.hostlist_laws.specs.Items.{Item, AreItems, text_of, hosts_of};

/// The text of items has no fault and spells their hosts, in their order; it is read where these
/// are no more than 65,536 (Flux RFC 29).
pub fn item_texts_spell_their_hosts()
    ensures clean { (items : List Item) → AreItems items → text_fault (text_of items) ≡ None }
    ensures hosts { (items : List Item) → AreItems items
        → spelled (text_of items) ≡ hosts_of items }
    ensures few { (items : List Item) → AreItems items → length (hosts_of items) ≤ 65536
        → first_fault (text_of items) ≡ None }
    ensures many { (items : List Item) → AreItems items → 65536 < length (hosts_of items)
        → first_fault (text_of items) ≡ Some TooMany }
{}

/// Each text without a fault is the text of items, and spells their hosts (Flux RFC 29). So the
/// texts that are read are exactly those of items with no more than 65,536 hosts.
pub fn texts_without_fault_are_of_items()
    ensures { (text : List ℕ) → text_fault text ≡ None → (items : List Item)
        × AreItems items × (text ≡ text_of items) × (spelled text ≡ hosts_of items) }
{}
