//! Calls on names in directories.

use super::*;

/// Refuses a name that has a slash or a zero.
fn check_letter(letter: u8) -> Result<(), Stop> {
    if letter == b'/' || letter == 0 {
        return Err(Stop::Refused(ACCES));
    }
    Ok(())
}

/// Refuses the name ".", with this status.
fn check_dot(letter: u8, status: u32) -> Result<(), Stop> {
    if letter == b'.' {
        return Err(Stop::Refused(status));
    }
    Ok(())
}

/// These names with one more, in the order of their bytes.
fn names_with(alloc: Global, names: &[Name], new: Name) -> Result<Vec<Name>, AllocError> {
    let mut all = Vec::new(alloc);
    let mut is_in = false;
    for name in names {
        if !is_in && new.letter < name.letter {
            all.push(new)?;
            is_in = true;
        }
        all.push(*name)?;
    }
    if !is_in {
        all.push(new)?;
    }
    Ok(all)
}

impl Service<'_> {
    /// The names of a directory are others now.
    fn set_names(&mut self, dir: u32, names: Vec<Name>) {
        if let Some(node) = self.array.node_mut(dir) {
            node.content = Content::Dir(names);
        }
        self.touch(dir, true);
    }

    /// A directory gets a name.
    fn add_name(&mut self, dir: u32, letter: u8, target: Oid) -> Result<(), AllocError> {
        let new = Name { letter, target };
        let names = names_with(self.alloc, self.array.names(dir), new)?;
        self.set_names(dir, names);
        Ok(())
    }

    /// A directory loses a name.
    fn drop_name(&mut self, dir: u32, letter: u8) {
        if let Some(node) = self.array.node_mut(dir) {
            if let Content::Dir(names) = &mut node.content {
                names.retain(|name| name.letter != letter);
            }
        }
        self.touch(dir, true);
    }

    /// An object lost a name. Without one it is no more.
    fn lose(&mut self, object: Oid) {
        if self.array.links(object.index) > 0 {
            self.touch(object.index, false);
        } else if let Some(entry) = self.array.entry_mut(object.index) {
            *entry = null_entry(object.generation);
        }
    }

    /// An object of nobody is made under a name, which the directory has not. So many bytes are in use by it.
    fn make(
        &mut self,
        dir: u32,
        letter: u8,
        mode: u32,
        content: Content,
        size: u32,
    ) -> Result<u32, Stop> {
        let index = self.array.free().ok_or(Stop::Refused(NOSPC))?;
        self.has_room(size.saturating_add(512), 0)?;
        let before = self.array.entry(index).ok_or(Stop::Refused(NOSPC))?;
        let generation = before.generation.saturating_add(1);
        self.add_name(dir, letter, Oid { index, generation })?;
        let attr = Attr {
            mode,
            owner: NOBODY,
            atime: self.time,
            mtime: self.time,
            ctime: self.time,
        };
        let node = Some(Node { attr, content });
        if let Some(entry) = self.array.entry_mut(index) {
            *entry = Entry { generation, node };
        }
        Ok(index)
    }

    /// The index of a directory in which something is made under a name.
    fn place_for(&self, dir: Oid, letter: u8) -> Result<u32, Stop> {
        let dir = self.directory(dir)?;
        check_letter(letter)?;
        check_dot(letter, EXIST)?;
        Ok(dir)
    }

    /// The same, where the name must be new.
    fn new_place_for(&self, dir: Oid, letter: u8) -> Result<u32, Stop> {
        let dir = self.place_for(dir, letter)?;
        if self.array.target(dir, letter).is_some() {
            return Err(Stop::Refused(EXIST));
        }
        Ok(dir)
    }

    /// The index of a directory, and the object that a name there leads to and that is to lose it.
    fn named(&self, dir: Oid, letter: u8) -> Result<(u32, Oid), Stop> {
        let dir = self.directory(dir)?;
        check_letter(letter)?;
        check_dot(letter, PERM)?;
        let target = self.array.target(dir, letter).ok_or(Stop::Refused(NOENT))?;
        Ok((dir, target))
    }

    pub fn look_up(&self, dir: Oid, letter: u8) -> Result<Outcome, Stop> {
        let dir = self.directory(dir)?;
        check_letter(letter)?;
        if letter == b'.' {
            return self.found(dir, &[]);
        }
        let target = self.array.target(dir, letter).ok_or(Stop::Refused(NOENT))?;
        self.found(target.index, &[])
    }

    /// A file that is there is cut or filled, if a size is given.
    fn create_again(&mut self, file: Oid, size: Option<u32>) -> Result<Outcome, Stop> {
        let Ok(bytes) = self.file(file) else {
            return Err(Stop::Refused(EXIST));
        };
        let Some(size) = size else {
            return self.found(file.index, &[]);
        };
        self.fits(size, length_of(bytes.as_slice()))?;
        self.resize(file.index, size)?;
        self.touch(file.index, true);
        self.found(file.index, &[file.index])
    }

    pub fn create(&mut self, dir: Oid, letter: u8, size: Option<u32>) -> Result<Outcome, Stop> {
        let dir = self.place_for(dir, letter)?;
        if let Some(target) = self.array.target(dir, letter) {
            return self.create_again(target, size);
        }
        let size = size.unwrap_or(0);
        if size > FILE_LIMIT {
            return Err(Stop::Refused(FBIG));
        }
        let content = Content::File(Vec::new(self.alloc));
        let index = self.make(dir, letter, 0o644, content, size)?;
        self.resize(index, size)?;
        self.found(index, &[dir, index])
    }

    pub fn make_dir(&mut self, dir: Oid, letter: u8) -> Result<Outcome, Stop> {
        let dir = self.new_place_for(dir, letter)?;
        let content = Content::Dir(Vec::new(self.alloc));
        let index = self.make(dir, letter, 0o755, content, 0)?;
        self.found(index, &[dir, index])
    }

    pub fn symlink(&mut self, dir: Oid, letter: u8, text: &[u8]) -> Result<Outcome, Stop> {
        let dir = self.new_place_for(dir, letter)?;
        let content = Content::Link(Vec::from_slice(self.alloc, text)?);
        let index = self.make(dir, letter, 0o777, content, length_of(text))?;
        self.outcome(&[0], &[dir, index])
    }

    pub fn link(&mut self, node: Oid, dir: Oid, letter: u8) -> Result<Outcome, Stop> {
        let index = self.live(node)?;
        self.live(dir)?;
        if self.array.is_dir(index) {
            return Err(Stop::Refused(PERM));
        }
        let dir = self.directory(dir)?;
        check_letter(letter)?;
        check_dot(letter, PERM)?;
        if self.array.target(dir, letter).is_some() {
            return Err(Stop::Refused(EXIST));
        }
        self.has_room(512, 0)?;
        self.add_name(dir, letter, node)?;
        self.touch(index, false);
        self.outcome(&[0], &[dir, index])
    }

    pub fn remove(&mut self, dir: Oid, letter: u8) -> Result<Outcome, Stop> {
        let (dir, object) = self.named(dir, letter)?;
        if self.array.is_dir(object.index) {
            return Err(Stop::Refused(ISDIR));
        }
        self.drop_name(dir, letter);
        self.lose(object);
        self.outcome(&[0], &[dir, object.index])
    }

    pub fn remove_dir(&mut self, dir: Oid, letter: u8) -> Result<Outcome, Stop> {
        let (dir, object) = self.named(dir, letter)?;
        if !self.array.is_dir(object.index) {
            return Err(Stop::Refused(NOTDIR));
        }
        if !self.array.names(object.index).is_empty() {
            return Err(Stop::Refused(NOTEMPTY));
        }
        self.drop_name(dir, letter);
        self.lose(object);
        self.outcome(&[0], &[dir, object.index])
    }

    /// Whether a directory is another one or lies below it.
    fn is_within(&self, dir: u32, other: u32) -> bool {
        let mut at = dir;
        for _ in 0..COUNT {
            if at == other {
                return true;
            }
            at = self.array.parent(at);
        }
        false
    }

    /// Refuses to put an object in the place of another.
    fn can_replace(&self, moved: Oid, other: Oid) -> Result<(), Stop> {
        let (is_dir, was_dir) = (
            self.array.is_dir(moved.index),
            self.array.is_dir(other.index),
        );
        if was_dir && !is_dir {
            return Err(Stop::Refused(ISDIR));
        }
        if is_dir && !was_dir {
            return Err(Stop::Refused(NOTDIR));
        }
        if was_dir && !self.array.names(other.index).is_empty() {
            return Err(Stop::Refused(NOTEMPTY));
        }
        Ok(())
    }

    pub fn rename(
        &mut self,
        from: Oid,
        letter: u8,
        to: Oid,
        to_letter: u8,
    ) -> Result<Outcome, Stop> {
        self.live(from)?;
        self.live(to)?;
        let from = self.directory(from)?;
        let to = self.directory(to)?;
        check_letter(letter)?;
        check_letter(to_letter)?;
        check_dot(letter, PERM)?;
        check_dot(to_letter, PERM)?;
        let moved = self.array.target(from, letter).ok_or(Stop::Refused(NOENT))?;
        let replaced = self.array.target(to, to_letter);
        if replaced == Some(moved) {
            return self.outcome(&[0], &[]);
        }
        if let Some(other) = replaced {
            self.can_replace(moved, other)?;
        }
        if self.array.is_dir(moved.index) && self.is_within(to, moved.index) {
            return Err(Stop::Refused(ACCES));
        }
        self.drop_name(from, letter);
        self.drop_name(to, to_letter);
        self.add_name(to, to_letter, moved)?;
        if let Some(other) = replaced {
            self.lose(other);
        }
        self.renamed(from, to, replaced)
    }

    /// The result of a RENAME, which told of both directories, and of what was replaced.
    fn renamed(&self, from: u32, to: u32, replaced: Option<Oid>) -> Result<Outcome, Stop> {
        let mut outcome = self.outcome(&[0], &[from])?;
        if to != from {
            outcome.told.push(to).map_err(AllocError::from)?;
        }
        if let Some(other) = replaced {
            outcome.told.push(other.index).map_err(AllocError::from)?;
        }
        Ok(outcome)
    }

    /// The words of the n-th of the entries that READDIR gives, counted from 0: ".", "..", and then the names.
    fn listed(&self, dir: u32, n: u32) -> Option<[u32; 5]> {
        let cookie = n.saturating_add(1);
        if n == 0 {
            return Some([1, dir.saturating_add(1), 1, 0x2e000000, cookie]);
        }
        if n == 1 {
            let parent = self.array.parent(dir);
            return Some([1, parent.saturating_add(1), 2, 0x2e2e0000, cookie]);
        }
        let name = self.array.names(dir).get(n.saturating_sub(2) as usize)?;
        let fileid = name.target.index.saturating_add(1);
        let word = u32::from_be_bytes([name.letter, 0, 0, 0]);
        Some([1, fileid, 1, word, cookie])
    }

    /// An entry takes 20 bytes, and the end 8.
    pub fn read_dir(&self, dir: Oid, cookie: u32, count: u32) -> Result<Outcome, Stop> {
        let dir = self.directory(dir)?;
        let most = count.min(8192).saturating_sub(8) / 20;
        let mut result = Vec::new(self.alloc);
        put_words(&mut result, &[0])?;
        for n in cookie..cookie.saturating_add(most) {
            if let Some(entry) = self.listed(dir, n) {
                put_words(&mut result, &entry)?;
            }
        }
        let is_end = self.listed(dir, cookie.saturating_add(most)).is_none();
        put_words(&mut result, &[0, u32::from(is_end)])?;
        Ok(Outcome {
            result,
            told: Vec::new(self.alloc),
        })
    }
}
