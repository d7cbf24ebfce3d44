ghost use Rattle.std.specs.Prelude.{◌≡◌, IfOk, map};
ghost use Rattle.dms_desc.specs.Shape.{shape_of, as_described};

use crate::{Description, Groups, Item, Items, KeyParts, Structure, Structures};
use dms_base::Memory;
use std::alloc::Global;

impl Item {
    /// A copy of an item. Answers Err where memory is refused.
    pub fn copy(&self, alloc: Global) -> Result<Item, Memory>
        ensures { IfOk result (λ i. i ≡ self.now) }
    {
        Ok(Item {
            name: self.name,
            kind: self.kind,
            required: self.required,
            initial: self.initial.copy(alloc)?,
        })
    }
}

impl Items {
    /// A copy of the list. Answers Err where memory is refused.
    pub fn copy(&self, alloc: Global) -> Result<Items, Memory>
        ensures { IfOk result (λ v. v ≡ self.now) }
    {
        let mut made = Items::new(alloc);
        for item in self.as_slice() {
            made.push(item.copy(alloc)?)?;
        }
        Ok(made)
    }
}

impl Groups {
    /// A copy of the list. Answers Err where memory is refused.
    pub fn copy(&self, alloc: Global) -> Result<Groups, Memory>
        ensures { IfOk result (λ v. v ≡ self.now) }
    {
        let mut made = Groups::new(alloc);
        for group in self.as_slice() {
            made.push(*group)?;
        }
        Ok(made)
    }
}

impl KeyParts {
    /// A copy of the list. Answers Err where memory is refused.
    pub fn copy(&self, alloc: Global) -> Result<KeyParts, Memory>
        ensures { IfOk result (λ v. v ≡ self.now) }
    {
        let mut made = KeyParts::new(alloc);
        for part in self.as_slice() {
            made.push(*part)?;
        }
        Ok(made)
    }
}

impl Structure {
    /// A copy of a structure. Answers Err where memory is refused.
    pub fn copy(&self, alloc: Global) -> Result<Structure, Memory>
        ensures { IfOk result (λ s. shape_of s ≡ shape_of self.now) }
    {
        let items = self.items.copy(alloc)?;
        let groups = self.groups.copy(alloc)?;
        let cond = self.cond.copy(alloc)?;
        let parts = self.parts.copy(alloc)?;
        Ok(Structure {
            number: self.number,
            kind: self.kind,
            name: self.name,
            owner: self.owner,
            population: self.population,
            items,
            groups,
            cond,
            set: self.set,
            form: self.form,
            duplicates: self.duplicates,
            parts,
        })
    }
}

impl Structures {
    /// A copy of the list. Answers Err where memory is refused.
    pub fn copy(&self, alloc: Global) -> Result<Structures, Memory>
        ensures { IfOk result (λ v. map shape_of v ≡ map shape_of self.now) }
    {
        let mut made = Structures::new(alloc);
        for structure in self.as_slice() {
            made.push(structure.copy(alloc)?)?;
        }
        Ok(made)
    }
}

impl Description {
    /// A copy of a description. Answers Err where memory is refused.
    pub fn copy(&self, alloc: Global) -> Result<Description, Memory>
        ensures { IfOk result (λ d. as_described d ≡ as_described self.now) }
    {
        Ok(Description {
            syncpoint: self.syncpoint,
            controlpoint: self.controlpoint,
            buffers: self.buffers,
            blocks: self.blocks,
            files: self.files,
            structures: self.structures.copy(alloc)?,
        })
    }
}
